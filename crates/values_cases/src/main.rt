// Replays the vectors of data/cases: runs of value rows judged and merged, walks over nodes and values, first batches, and answers as lent.
#![tactic(auto)]

ghost use Rattle.std.specs.Prelude.{◌<◌, ◌≤◌, IfOk, vec_len};

use answers::Lending;
use cases::{Case, Refused};
use load_items::{Handed, Shown, Values};
use row_walk::Request;
use std::alloc::{AllocError, Global};
use std::io;
use values::ValueRow;
use words::Refusal;

// The most words of a field, as many heads and values as a load may have.
const WORDS: usize = 12_288;

// The words of the items of a field.
fn words_of(alloc: Global, case: Case, n: usize) -> Result<Vec<u64>, AllocError>
    ensures { IfOk result (λ words. vec_len words ≤ WORDS) }
{
    load_items::words_of(alloc, case.field_bytes(n), WORDS)
}

// Whether the rows of a field are lawful.
fn ask_lawful(rt: &HostRuntime, case: Case) -> io::Result<()> {
    let rows = words_of(rt.alloc(), case, 2)?;
    let mut levels = vec![in rt.alloc(); 0u64; rows.len() + 1]?;
    if values::is_lawful(&rows, &mut levels) {
        println!(rt; "lawful")
    } else {
        println!(rt; "not lawful")
    }
}

// Merges two entities, each its parents and its attributes.
fn ask_merge(rt: &HostRuntime, case: Case) -> io::Result<()> {
    let left_parents = words_of(rt.alloc(), case, 2)?;
    let left = words_of(rt.alloc(), case, 3)?;
    let right_parents = words_of(rt.alloc(), case, 4)?;
    let right = words_of(rt.alloc(), case, 5)?;
    let mut out = vec![in rt.alloc(); 0u64; left.len() + right.len()]?;
    match merging::merge_entities(&left_parents, &left, &right_parents, &right, &mut out, 0) {
        None => println!(rt; "13"),
        Some(end) => {
            out.truncate(end);
            println!(rt; "{}{}", out.len(), Values(&out))
        }
    }
}

// Says how many rows a batch asks, and the first of them.
fn tell_batch(rt: &HostRuntime, batch: Option<usize>, out: &[u64]) -> io::Result<()> {
    match batch {
        None => println!(rt; "14"),
        Some(end) => {
            let words = out.get(..end).unwrap_or(out);
            let count = words.len() as u64;
            println!(rt;
                "{count}{}",
                Shown {
                    handed: Handed::Rows,
                    count,
                    words
                }
            )
        }
    }
}

// What the children of a node find among attributes: at most a row a node.
fn ask_walk(rt: &HostRuntime, case: Case) -> io::Result<()> {
    let nodes = words_of(rt.alloc(), case, 2)?;
    let node = usize::from(case.number(3));
    let values = words_of(rt.alloc(), case, 4)?;
    let mut out = vec![in rt.alloc(); 0u64; nodes.len()]?;
    let batch = row_walk::find_remaining_entities(&nodes, node, &values, &mut out, 0);
    tell_batch(rt, batch, &out)
}

// The request of a case: principal type, action, resource type, principal, resource.
fn request(case: Case) -> Request
    ensures { (result.principal < 65536) × (result.resource < 65536) }
{
    Request {
        triple: case.triple(3),
        principal: u64::from(case.number(6)),
        resource: u64::from(case.number(7)),
    }
}

// The first batch of the roots below the depth and from the place that a case names: at most a row a node.
fn ask_first(rt: &HostRuntime, case: Case) -> io::Result<()> {
    let nodes = words_of(rt.alloc(), case, 2)?;
    let context = words_of(rt.alloc(), case, 8)?;
    let depth = u64::from(case.number(9));
    let from = usize::from(case.number(10));
    let mut out = vec![in rt.alloc(); 0u64; nodes.len()]?;
    let batch = row_walk::initial_entities_to_load(
        &nodes,
        depth,
        from,
        request(case),
        &context,
        &mut out,
        0,
    );
    tell_batch(rt, batch, &out)
}

// Judges as many answers or sets as a case says, and sums them onto a sum where that is no more than a load's.
fn ask_lent(rt: &HostRuntime, case: Case, lent: Lending) -> io::Result<()> {
    let count = u64::from(case.number(2));
    let words = words_of(rt.alloc(), case, 3)?;
    let before = u64::from(case.number(4));
    let mut levels = vec![in rt.alloc(); 0u64; words.len()]?;
    match answers::check(lent, &words, count, &mut levels) {
        Err(place) => println!(rt; "{}", Refused(Refusal { number: 1, place })),
        Ok(taken) if ValueRow::VALUES < before => println!(rt; "{taken}"),
        Ok(taken) => match answers::sum(lent, &words, count, before) {
            Ok(sum) => println!(rt; "{taken} words, sum {sum}"),
            Err(place) => println!(rt; "{taken} words, {}", Refused(Refusal { number: 15, place })),
        },
    }
}

// Says a case by its name, and what comes of it.
fn replay(rt: &HostRuntime, case: Case) -> io::Result<()> {
    cases::print_bytes(rt, case.field_bytes(1))?;
    print!(rt; ": ")?;
    match case.field_bytes(0) {
        b"lawful" => ask_lawful(rt, case),
        b"merge" => ask_merge(rt, case),
        b"walk" => ask_walk(rt, case),
        b"first" => ask_first(rt, case),
        b"answers" => ask_lent(rt, case, Lending::Answers),
        _ => ask_lent(rt, case, Lending::Sets),
    }
}

fn main(rt: HostRuntime) {
    cases::replay_bytes(&rt, "cases", |case| replay(&rt, case));
}
