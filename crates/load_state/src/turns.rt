// The turn of a load, and whether a state's fits the load that it tells of.
ghost use Rattle.std.specs.Prelude.{◌≡◌, ◌&&◌, ◌≤◌, ◌<◌, leb, length, get_or};
ghost use Rattle.rules.specs.Loading.{Load, summed};
ghost use Rattle.rules.specs.LoadCalls.{is_summed, turn_fits};
ghost use Rattle.rows.specs.States.{rows_of};
ghost use Rattle.answers.specs.Answers.{AllRead, lent_from, lent_items};
ghost use Rattle.answers.specs.declared.Lending.TheVariants.{Sets};
ghost use Rattle.load_state.specs.LoadStates.{first_turn, answer_words, set_words};
ghost use Rattle.load_state.specs.Transcripts.{turn_in, node_words, lent_load, LentTo};

use crate::LoadState;
use crate::working::{Worked, work_out};
use answers::Lending;

// The turn of a load where so many rows wait: a batch waits where rows do.
pub fn turn_for(waiting: usize) -> u64
    ensures { result ≡ first_turn waiting }
{
    if waiting == 0 { 3 } else { 1 }
}

// Whether there are no more sets of ancestor ids than rows asked, and their sum is within the limit.
fn sets_fit(words: &[u64], count: u64, asked: usize, sum: u64) -> bool
    requires { AllRead (lent_from Sets 0 count words.now) × (sum ≤ 8192) }
    ensures { result ≡ (leb count asked && is_summed (summed length 0 sum (lent_items Sets count words.now))) }
{
    if (asked as u64) < count {
        return false;
    }
    answers::sum(Lending::Sets, words, count, sum).is_ok()
}

// Whether the turn fits: so many rows wait, so many were asked, and their answers come to a sum.
fn turn_fits(state: &[u64], waiting: usize, asked: usize, sum: u64) -> bool
    requires in_bounds { (36874 ≤ length state.now) × (0 < get_or state.now 0 0) × (sum ≤ 8192) }
    requires all_read { AllRead (lent_from Sets 0 (get_or state.now 8 0) (set_words state.now)) }
    ensures { (load : Load) → length load.waiting ≡ waiting → length load.asked ≡ asked → load.sum ≡ sum
        → result ≡ turn_fits (turn_in (get_or state.now 0 0)) load (lent_items Sets (get_or state.now 8 0) (set_words state.now)) }
{
    let turn = state[0];
    let sets = state[8];
    if turn < 3 {
        if waiting == 0 {
            return false;
        }
        return sets == 0;
    }
    if waiting != 0 {
        return false;
    }
    if turn < 5 {
        return sets == 0;
    }
    sets_fit(&state[LoadState::SETS..LoadState::WORDS], sets, asked, sum)
}

// The load of a lent state, if that is lawful. `scratch` is scratch.
pub fn read_load(
    state: &[u64],
    rows: &mut [u64],
    places: &mut [u64],
    scratch: &mut [u64],
) -> Option<Worked>
    requires in_bounds { (36874 ≤ length state.now) × (8192 ≤ length rows.old) }
    requires in_bounds_2 { (4096 ≤ length places.old) × (24577 ≤ length scratch.old) }
    ensures { LentTo (lent_load state.now) (answer_words state.now) rows.new places.new (get_or state.now 7 0) (rows_of (node_words state.now)) result }
{
    let load = work_out(state, rows, places, scratch)?;
    if turn_fits(state, load.end - load.asked, load.asked, load.sum) {
        Some(load)
    } else {
        None
    }
}
