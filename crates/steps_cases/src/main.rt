// Replays the vectors of data/: step texts under request type (10, 500, 20), and policy texts, with their schema, in data/oracle also with the
// Rust's answer.
#![tactic(auto)]

use cases::{Case, Refused};
use entity_manifest::{Kind, Refusal};
use schema::Schema;
use std::io;

const TEXT: usize = 65_536;

// Writes the listing of a state into `out`, and answers its bytes.
fn listing_of<'a>(kind: Kind, state: &[u64], out: &'a mut [u8]) -> Result<&'a [u8], Refusal> {
    let n = entity_manifest::write_listing(kind, state, out)?;
    Ok(out.get(..n).unwrap_or(&[]))
}

// Analyses a step text with a schema: the listing of the contribution that it makes.
fn analyse<'a>(schema: &[u64], steps: &[u8], out: &'a mut [u8]) -> Result<&'a [u8], Refusal> {
    let mut state = [0u64; 1_026];
    entity_manifest::analyse(schema, 42_982_440_980, steps, &mut state)?;
    listing_of(Kind::Contribution, &state, out)
}

// Adds policy texts to an empty manifest: its listing. An empty text adds nothing.
fn add_policies<'a>(
    schema: &[u64],
    policies: &[Vec<u8>],
    out: &'a mut [u8],
) -> Result<&'a [u8], Refusal> {
    let mut manifest = [0u64; 4_161];
    for policy in policies {
        entity_manifest::add_policy(schema, policy, &mut manifest)?;
    }
    listing_of(Kind::Manifest, &manifest, out)
}

// Reads a schema, and then analyses a step text or adds policy texts: the listing that comes of it.
fn answer<'a>(
    schema: &[u8],
    texts: &[Vec<u8>],
    are_policies: bool,
    out: &'a mut [u8],
) -> Result<&'a [u8], Refusal> {
    let mut state = [0u64; Schema::WORDS];
    entity_manifest::read_schema(schema, &mut state)?;
    match texts {
        [steps, ..] if !are_policies => analyse(&state, steps, out),
        _ => add_policies(&state, texts, out),
    }
}

// Says a case and its answer; of one with the Rust's answer its name alone, and whether the answer is that.
fn replay(rt: &HostRuntime, case: Case) -> io::Result<()> {
    let alloc = rt.alloc();
    let schema = case.decoded(alloc, 1, TEXT)?;
    let texts = [
        case.decoded(alloc, 2, TEXT)?,
        case.decoded(alloc, 4, TEXT)?,
        case.decoded(alloc, 5, TEXT)?,
    ];
    let mut out = [0u8; TEXT];
    let answer = answer(&schema, &texts, case.is(0, b"policy"), &mut out);
    if case.is(3, b"") {
        cases::print_bytes(rt, case.line)?;
        print!(rt; " -> ")?;
        match answer {
            Ok(listing) => {
                println!(rt)?;
                cases::print_bytes(rt, listing)?;
            }
            Err(refusal) => print!(rt; "{}", Refused(refusal))?,
        }
        println!(rt)
    } else {
        let expected = case.decoded(alloc, 3, TEXT)?;
        let is_same = match answer {
            Ok(listing) => listing == expected.as_slice(),
            Err(refusal) => format!(in alloc; "{}", Refused(refusal))?.as_bytes()
                == expected.as_slice(),
        };
        cases::print_bytes(rt, case.field_bytes(0))?;
        println!(rt; ": {}", cases::as_rust(is_same))
    }
}

fn main(rt: HostRuntime) {
    for path in [
        "cases", "cases2", "cases3", "cases4", "cases5", "cases6", "cases7", "cases8", "oracle",
    ] {
        cases::replay_bytes(&rt, path, |case| replay(&rt, case));
    }
}
