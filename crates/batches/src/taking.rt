// A batch's answers taken row by row.
ghost use Rattle.std.specs.Prelude.{List, ℕ, ◌+◌, ◌≤◌, ◌<◌, length, take, get_or};
ghost use Rattle.rules.specs.Loading.{Load};
ghost use Rattle.rules.specs.TakeLaws.{taken_by, all_taken_by};
ghost use Rattle.rows.specs.States.{rows_of};
ghost use Rattle.values.specs.ValueWords.{row_asked};
ghost use Rattle.batches.specs.Hearings.{heard_at, asked_before, heard_before, asked_in, heard_in, AnswerStands, AllStand};
ghost use Rattle.batches.specs.Takes.{TakenInto, LoadAt};

use crate::merges::merges_with_earlier;
use answers::Head;
use row_walk::find_remaining_entities;
use values::EntityRequest;
use words::Refusal;

// Takes the answer to row i: what its node's children find in it is written behind the rows so far (14), and it must merge with the earlier
// answers to its entity (13). Answers the place after the rows that come of it, or the refusal, whose place is `place`.
fn take_answer(
    nodes: &[u64],
    words: &[u64],
    rows: &mut [u64],
    places: &[u64],
    i: usize,
    end: usize,
    place: u64,
    scratch: &mut [u64],
) -> Result<usize, Refusal>
    requires i_lt_end { (i < end) × ((i < length places.now) × (end + length nodes.now ≤ length rows.old)) }
    requires nodes_len_bound { (length nodes.now ≤ 4096) × (length words.now + length words.now ≤ length scratch.old) }
    requires all_stand { AllStand words.now (take i places.now) × AnswerStands words.now (get_or places.now i 0) }
    ensures { TakenInto
        (taken_by (rows_of nodes.now) (asked_before rows.old i)
        (heard_before words.now places.now i) place
        (row_asked (get_or rows.old i 0)) (heard_at words.now (get_or places.now i 0)))
        rows.old end rows.new result }
{
    let row = rows[i];
    let at = places[i] as usize;
    let word = words[at];
    if word == 0 {
        return Ok(end);
    }
    let head = Head::from(word);
    let from = at + 1 + head.parents;
    let to = from + head.rows;
    let asked = EntityRequest::from(row);
    let node = asked.node as usize;
    let Some(next) = find_remaining_entities(nodes, node, &words[from..to], rows, end) else {
        return Err(Refusal { number: 14, place });
    };
    if merges_with_earlier(words, &rows[..i], &places[..i], asked.id, at, scratch) {
        return Ok(next);
    }
    Err(Refusal { number: 13, place })
}

// Takes the answers to the rows that wait, from `from` up to `to`: the rows that they give are written behind these. Answers the place after
// all rows, or the refusal, whose place is the answer's in the batch.
pub fn take_answers(
    nodes: &[u64],
    words: &[u64],
    rows: &mut [u64],
    places: &[u64],
    from: usize,
    to: usize,
    scratch: &mut [u64],
) -> Result<usize, Refusal>
    requires to_in_bounds { (to ≤ length places.now) × (8192 ≤ length rows.old) }
    requires nodes_len_bound { (length nodes.now ≤ 4096) × (length words.now + length words.now ≤ length scratch.old) }
    requires all_stand { AllStand words.now (take to places.now) }
    requires by_index { (s : List ℕ) × (load : Load) × LoadAt words.now rows.old places.now from to s (rows_of nodes.now) load }
    ensures { TakenInto
        (all_taken_by (rows_of nodes.now) (asked_before rows.old from)
        (heard_before words.now places.now from) 0
        (asked_in rows.old from to) (heard_in words.now places.now from to))
        rows.old to rows.new result }
{
    let mut end = to;
    for i in from..to {
        let place = (i - from) as u64;
        end = take_answer(nodes, words, rows, places, i, end, place, scratch)?;
    }
    Ok(end)
}
