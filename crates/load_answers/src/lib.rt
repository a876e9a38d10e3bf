// What stores answer to a load: row and request of one number by one store, all stores in turn.
#![tactic(auto)]

ghost use Rattle.std.specs.Prelude.{◌<◌, ◌≤◌, length};

use load_log::{RequestPlace, count_of};
use values::EntityRequest;

// How many stores may answer.
pub const STORES: usize = 8;

// The words of a store: its lines behind their count (docs/FORMS.md, 'Store').
pub const STORE: usize = 16_385;

pub type Store = [u64; STORE];

// How many words a load takes in one call beside the count and the heads: more are refused with 15.
const TAKEN: usize = 8_192;

// Which store answers what is k behind the first; 0 where there is none.
pub fn turn_of(stores: &[Store], first: u64, k: u64) -> usize
    ensures { (0 < length stores.now → result < length stores.now) × (result ≤ length stores.now) }
{
    let count = stores.len() as u64;
    if count == 0 {
        return 0;
    }
    (first.wrapping_add(k) % count) as usize
}

// Whether so many answers, up to a place, are refused with 15, so that those behind them need say nothing, and all of them have room.
fn is_enough(count: usize, at: usize) -> bool {
    count.wrapping_add(TAKEN + 1) < at
}

// The lines of a store: as many words as its count says; none where there is no store.
fn lines_of(store: Option<&Store>) -> &[u64]
    ensures { length result.now ≤ 16384 }
{
    match store {
        Some(words) if words[0] <= 16_384 => &words[1..words[0] as usize + 1],
        _ => &[],
    }
}

// Puts the answer that an entity is absent, or an empty set, where there is room.
fn put_nothing(out: &mut [u64], at: usize) -> usize
    requires { at ≤ length out.old }
    ensures { result ≤ length out.new }
{
    if out.len() <= at {
        return at;
    }
    out[at] = 0;
    at + 1
}

// The place behind what was put at a place, or else behind nothing that is put there.
fn behind(put: Option<usize>, out: &mut [u64], at: usize) -> usize
    requires { at ≤ length out.old }
    ensures { result ≤ length out.new }
{
    match put {
        Some(next) if next <= out.len() => next,
        _ => put_nothing(out, at),
    }
}

// Puts a store's answer to a row, whose entity is below 65,536, or nothing where enough was said.
fn answer_row(
    store: Option<&Store>,
    row: EntityRequest,
    is_full: bool,
    answers: &mut [u64],
    at: usize,
) -> usize
    requires { at ≤ length answers.old }
    ensures { result ≤ length answers.new }
{
    if is_full {
        return put_nothing(answers, at);
    }
    let id = row.id % 0x1_0000;
    let put = store_text::answer_row(lines_of(store), id, answers, at);
    behind(put, answers, at)
}

// Answers the rows of a batch, before which `first` were asked for, behind their count.
pub fn answer_rows(stores: &[Store], first: u64, rows: &[EntityRequest], answers: &mut [u64])
    requires { 1 ≤ length answers.old }
{
    let mut at = 1;
    for i in 0..rows.len() {
        let store = stores.get(turn_of(stores, first, i as u64));
        at = answer_row(store, rows[i], is_enough(i, at), answers, at);
    }
}

// Puts a store's answer to an ancestors request, or nothing where enough was said.
fn answer_request(
    store: Option<&Store>,
    id: u64,
    asked: &[u64],
    is_full: bool,
    sets: &mut [u64],
    at: usize,
) -> usize
    requires { (id ≤ 65535) × (at ≤ length sets.old) }
    ensures { result ≤ length sets.new }
{
    if is_full {
        return put_nothing(sets, at);
    }
    let put = store_text::answer_ancestors(lines_of(store), id, asked, sets, at);
    behind(put, sets, at)
}

// Answers the ancestors requests, behind their count.
pub fn answer_requests(stores: &[Store], requests: &[u64], sets: &mut [u64])
    requires { (4097 ≤ length requests.now) × (1 ≤ length sets.old) }
{
    let count = count_of(requests);
    let mut at = 1;
    let mut ids = 1 + count;
    for i in 0..count {
        let request = RequestPlace::at(requests, i, ids);
        let stop = request.end;
        let store = stores.get(turn_of(stores, 0, i as u64));
        at = answer_request(
            store,
            request.id,
            &requests[ids..stop],
            is_enough(i, at),
            sets,
            at,
        );
        ids = stop;
    }
}
