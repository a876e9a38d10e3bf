// What a store answers, from the words of its lines: an entity's row, and those of some ids that are among its ancestors.
ghost use Rattle.std.specs.Prelude.{map, ◌+◌, ◌≤◌, ◌<◌, length};
ghost use Rattle.rules.specs.MergeLaws.{IdsFrom};
ghost use Rattle.words.specs.Runs.{Wrote};
ghost use Rattle.store_text.specs.Answering.{id_in, among_of, FoundEntity, EntityAnswered, AnsweredRow, AnsweredAncestors};

use crate::runs::{Part, run_end};

// Where the entity of an id stands: the place of its own word, if it is there. No word of a parent, an ancestor or a row is an id.
fn find_entity(words: &[u64], id: u64) -> Option<usize>
    requires { id ≤ 65535 }
    ensures { FoundEntity words.now id result }
{
    words.iter().position(|word| *word == id)
}

// Copies the ids of words of parents to a place, and answers the place after them.
fn copy_ids(words: &[u64], out: &mut [u64], to: usize) -> usize
    requires { to + length words.now ≤ length out.old }
    ensures { Wrote out.old to (map id_in words.now) out.new result }
{
    for i in 0..words.len() {
        out[to + i] = words[i] % 0x1_0000;
    }
    to + words.len()
}

// Writes the answer that is the entity at a place: its head, its parents and its rows. Answers the place behind it, if there is room for it.
fn write_entity(words: &[u64], at: usize, out: &mut [u64], to: usize) -> Option<usize>
    requires { (at < length words.now) × (length words.now ≤ 16384) × (to ≤ length out.old) }
    ensures { EntityAnswered words.now at out.old to out.new result }
{
    let parents = at + 1;
    let ancestors = run_end(words, parents, Part::Parents);
    let rows = run_end(words, ancestors, Part::Ancestors);
    let end = run_end(words, rows, Part::Rows);
    let parent_count = ancestors - parents;
    let row_count = end - rows;
    if out.len() - to <= parent_count + row_count {
        return None;
    }
    out[to] = 1 + parent_count as u64 * 0x1_0000 + row_count as u64 * 0x1_0000_0000;
    let behind = copy_ids(&words[parents..ancestors], out, to + 1);
    Some(words::copy_words(&words[rows..end], out, behind))
}

// Writes the answer to a row that asks for an entity (docs/FORMS.md, 'Answers in'): 0 where it is absent. Answers the place behind it, if
// there is room for it.
pub fn answer_row(words: &[u64], id: u64, out: &mut [u64], to: usize) -> Option<usize>
    requires { (id ≤ 65535) × (length words.now ≤ 16384) × (to ≤ length out.old) }
    ensures { AnsweredRow words.now id out.old to out.new result }
{
    let Some(at) = find_entity(words, id) else {
        if out.len() <= to {
            return None;
        }
        out[to] = 0;
        return Some(to + 1);
    };
    write_entity(words, at, out, to)
}

// Writes in one pass those of the ids asked for that are among ancestors, where both ascend, and answers the place after them.
fn write_among(ancestors: &[u64], asked: &[u64], out: &mut [u64], to: usize) -> usize
    requires { to + length asked.now ≤ length out.old }
    ensures { (to ≤ result) × (IdsFrom 0 (map id_in ancestors.now) → IdsFrom 0 asked.now
        → Wrote out.old to (among_of (map id_in ancestors.now) asked.now) out.new result) }
{
    let mut next = to;
    let mut i = 0;
    let mut j = 0;
    while i < asked.len() {
        if j == ancestors.len() {
            return next;
        }
        let id = asked[i];
        let there = ancestors[j] % 0x1_0000;
        if there < id {
            j += 1;
        } else {
            if there == id {
                out[next] = id;
                next += 1;
            }
            i += 1;
        }
    }
    next
}

// Writes the answer to an ancestors request (docs/FORMS.md, 'Ancestors answers in'), where there is room for all ids asked for, and answers
// the place behind it.
pub fn answer_ancestors(
    words: &[u64],
    id: u64,
    asked: &[u64],
    out: &mut [u64],
    to: usize,
) -> Option<usize>
    requires { (id ≤ 65535) × (to ≤ length out.old) }
    ensures { AnsweredAncestors words.now id asked.now out.old to out.new result }
{
    if out.len() - to <= asked.len() {
        return None;
    }
    let Some(at) = find_entity(words, id) else {
        out[to] = 0;
        return Some(to + 1);
    };
    let start = run_end(words, at + 1, Part::Parents);
    let end = run_end(words, start, Part::Ancestors);
    let behind = write_among(&words[start..end], asked, out, to + 1);
    out[to] = (behind - to - 1) as u64;
    Some(behind)
}
