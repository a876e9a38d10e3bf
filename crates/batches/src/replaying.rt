// A load worked out again from its answers.
ghost use Rattle.std.specs.Prelude.{◌≡◌, List, ℕ, ◌+◌, ◌≤◌, length, take};
ghost use Rattle.rules.specs.Loading.{done, summed, size_of_answer};
ghost use Rattle.rules.specs.LoadCalls.{after_answers};
ghost use Rattle.rows.specs.States.{rows_of};
ghost use Rattle.batches.specs.Hearings.{asked_before, heard_before, AllStand};
ghost use Rattle.batches.specs.Takes.{LoadAt};
ghost use Rattle.batches.specs.Replays.{first_load, ReplayedTo};

use crate::taking::take_answers;

// Takes the answers at the first `count` places, batch by batch; the first batch's rows stand before `first`. Answers the place after the
// rows that wait and how many batches were answered, or none where no load has such answers.
pub fn replay(
    nodes: &[u64],
    words: &[u64],
    rows: &mut [u64],
    places: &[u64],
    first: usize,
    count: usize,
    scratch: &mut [u64],
) -> Option<(usize, u64)>
    requires count_in_bounds { (count ≤ length places.now) × (8192 ≤ length rows.old) }
    requires nodes_len_bound { (length nodes.now ≤ 4096) × (length words.now + length words.now ≤ length scratch.old) }
    requires all_stand { AllStand words.now (take count places.now) }
    requires by_index { (total : ℕ) × (summed size_of_answer 0 0 (heard_before words.now places.now count) ≡ done total) }
    requires by_index_2 { (s : List ℕ)
        × LoadAt words.now rows.old places.now 0 first s (rows_of nodes.now) (first_load (asked_before rows.old first)) }
    ensures { ReplayedTo
        (after_answers count (rows_of nodes.now) (first_load (asked_before rows.old first))
        (heard_before words.now places.now count))
        words.now rows.new places.now count (rows_of nodes.now) result }
{
    let mut asked: usize = 0;
    let mut end = first;
    let mut batches: u64 = 0;
    while asked < count {
        if end == asked {
            return None;
        }
        if count < end {
            return None;
        }
        let Ok(next) = take_answers(nodes, words, rows, places, asked, end, scratch) else {
            return None;
        };
        asked = end;
        end = next;
        batches += 1;
    }
    Some((end, batches))
}
