// The parts of a lent state of a load, each judged for its form.
ghost use Rattle.std.specs.Prelude.{◌≡◌, ◌≤◌, length};
ghost use Rattle.load_state.specs.LoadStates.{is_request, good_head, good_entry, good_context, good_lent, good_parts};

use crate::LoadState;
use answers::Lending;
use rows::{Kind, Row, is_lawful_entry};
use values::{ValueRow, is_lawful};

// Whether the numbers of a request are ids.
pub fn is_request(triple: u64, principal: u64, resource: u64) -> bool
    ensures { result ≡ is_request triple principal resource }
{
    if 0xffff_ffff_ffff < triple {
        return false;
    }
    if 0xffff < principal {
        return false;
    }
    resource <= 0xffff
}

// Whether a turn and a request's numbers stand in front.
fn has_good_head(state: &[u64]) -> bool
    requires { 36874 ≤ length state.now }
    ensures { result ≡ good_head state.now }
{
    let turn = state[0];
    if turn == 0 {
        return false;
    }
    if 5 < turn {
        return false;
    }
    is_request(state[1], state[2], state[3])
}

// Whether the entry is one of the request's type, or there is none.
fn has_good_entry(state: &[u64]) -> bool
    requires { 36874 ≤ length state.now }
    ensures { result ≡ good_entry state.now }
{
    let count = state[5];
    let first = state[4];
    if count == 0 {
        return first == 0;
    }
    if LoadState::ENTRY_ROWS < count {
        return false;
    }
    let end = LoadState::ENTRY + count as usize;
    if !is_lawful_entry(&state[LoadState::ENTRY..end]) {
        return false;
    }
    let own = Row { word: state[9] };
    if own.step() != state[1] {
        return false;
    }
    if Kind::NODES < first {
        return false;
    }
    first + count < 4_098
}

// Whether the context is a record of at most 8,192 rows. `levels` is scratch.
fn has_good_context(state: &[u64], levels: &mut [u64]) -> bool
    requires { (36874 ≤ length state.now) × (8193 ≤ length levels.old) }
    ensures { result ≡ good_context state.now }
{
    let count = state[6];
    if ValueRow::VALUES < count {
        return false;
    }
    let end = LoadState::CONTEXT + count as usize;
    is_lawful(&state[LoadState::CONTEXT..end], levels)
}

// Whether so many answers, or sets of ancestor ids, are of their form. `levels` is scratch.
fn has_good_lent(lent: Lending, count: u64, words: &[u64], levels: &mut [u64]) -> bool
    requires { length words.now ≤ length levels.old }
    ensures { result ≡ good_lent lent count words.now }
{
    if Kind::NODES < count {
        return false;
    }
    answers::check(lent, words, count, levels).is_ok()
}

// Whether all parts of a state are of their form.
pub fn has_good_parts(state: &[u64], levels: &mut [u64]) -> bool
    requires { (36874 ≤ length state.now) × (12288 ≤ length levels.old) }
    ensures { result ≡ good_parts state.now }
{
    if !has_good_head(state) {
        return false;
    }
    if !has_good_entry(state) {
        return false;
    }
    if !has_good_context(state, levels) {
        return false;
    }
    if !has_good_lent(
        Lending::Answers,
        state[7],
        &state[LoadState::ANSWERS..LoadState::SETS],
        levels,
    ) {
        return false;
    }
    has_good_lent(
        Lending::Sets,
        state[8],
        &state[LoadState::SETS..LoadState::WORDS],
        levels,
    )
}
