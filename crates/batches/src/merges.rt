// Whether an answer merges with the earlier answers to its entity.
ghost use Rattle.std.specs.Prelude.{◌≡◌, map, ◌+◌, ◌≤◌, length};
ghost use Rattle.rules.specs.SliceLaws.{answers_to};
ghost use Rattle.values.specs.ValueWords.{row_asked};
ghost use Rattle.batches.specs.Hearings.{heard_at, AnswerStands, AllStand, agree as agree_of, agrees_if_asked, merges_with};

use answers::Head;
use merging::merge_entities;
use values::EntityRequest;

// Whether the answers at two places merge; an absent one does with any. What is merged goes into scratch.
fn agree(words: &[u64], left: usize, right: usize, scratch: &mut [u64]) -> bool
    requires { AnswerStands words.now left × AnswerStands words.now right
        × (length words.now + length words.now ≤ length scratch.old) }
    ensures { result ≡ agree_of (heard_at words.now left) (heard_at words.now right) }
{
    let first = words[left];
    if first == 0 {
        return true;
    }
    let second = words[right];
    if second == 0 {
        return true;
    }
    let a = Head::from(first);
    let b = Head::from(second);
    let a_parents = left + 1;
    let a_rows = a_parents + a.parents;
    let a_end = a_rows + a.rows;
    let b_parents = right + 1;
    let b_rows = b_parents + b.parents;
    let b_end = b_rows + b.rows;
    merge_entities(
        &words[a_parents..a_rows],
        &words[a_rows..a_end],
        &words[b_parents..b_rows],
        &words[b_rows..b_end],
        scratch,
        0,
    )
    .is_some()
}

// The same for the answer to a row, where the row asks for the entity.
fn agrees_if_asked(
    words: &[u64],
    row: u64,
    place: usize,
    id: u64,
    at: usize,
    scratch: &mut [u64],
) -> bool
    requires { AnswerStands words.now place × AnswerStands words.now at × (length words.now + length words.now ≤ length scratch.old) }
    ensures { result ≡ agrees_if_asked id (row_asked row) (heard_at words.now place) (heard_at words.now at) }
{
    if EntityRequest::from(row).id == id {
        return agree(words, place, at, scratch);
    }
    true
}

// Whether the answer at a place merges with each answer to rows that ask for the same entity.
pub fn merges_with_earlier(
    words: &[u64],
    rows: &[u64],
    places: &[u64],
    id: u64,
    at: usize,
    scratch: &mut [u64],
) -> bool
    requires rows_len { (length rows.now ≡ length places.now) × (AllStand words.now places.now × AnswerStands words.now at) }
    requires words_in_bounds { length words.now + length words.now ≤ length scratch.old }
    ensures { result
        ≡ merges_with (answers_to id (map row_asked rows.now) (map (heard_at words.now) places.now))
        (heard_at words.now at) }
{
    for i in 0..rows.len() {
        let place = places[i] as usize;
        if !agrees_if_asked(words, rows[i], place, id, at, scratch) {
            return false;
        }
    }
    true
}
