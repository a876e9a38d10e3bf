// ancestors: one request for each row ever asked.
ghost use Rattle.std.specs.Prelude.{◌≡◌, ℕ, ◌≤◌, length, take, get_or};
ghost use Rattle.rules.specs.Loading.{done, Load, ancestors_requests};
ghost use Rattle.ancestors.specs.SliceWords.{slice_in};
ghost use Rattle.ancestors.specs.Requests.{RequestsAnswered};
ghost use Rattle.load_state.specs.Transcripts.{transcript_in, lent_load};
ghost use Rattle.load_state.specs.Outcomes.{HandedAs};
ghost use Rattle.load_ends.specs.Ends.{ReadTo};
ghost use Rattle.load_ancestors.specs.Asking.{asking_of, ancestors_in};

use ancestors::compute_ancestors_requests;
use load_state::{LoadCounts, LoadRefusal, LoadReply, LoadState, Worked, Workspace, nodes_from};
use row_walk::Request;
use slices::build_slice;
use words::Refusal;

// The one length of requests that are handed out: a count, heads and ids.
const REQUEST_WORDS: usize = 528_385;

// Writes the slice of a load, without ancestors, and answers the place after it.
fn write_slice(state: &[u64], load: Worked, work: &mut Workspace, out: &mut [u64]) -> usize
    requires in_bounds { (36874 ≤ length state.now) × (12288 ≤ length out.old) }
    requires read_to { ReadTo state.now work.old.rows work.old.places load.asked load.batches load.sum }
    ensures slice { (result ≤ length out.new) × ((told : Load) → lent_load state.now ≡ done told → slice_in (take result out.new) ≡ told.slice) }
    ensures rows_stay { work.new.rows ≡ work.old.rows }
{
    let built = build_slice(
        &state[LoadState::ANSWERS..LoadState::SETS],
        &work.rows[..load.asked],
        &work.places[..load.asked],
        &state[..0],
        &state[..0],
        out,
        0,
        &mut work.scratch,
    );
    built.end
}

// Writes the requests of a load of which no row waits, or refuses the first that is too large or meets a wrong value.
fn write_requests(
    state: &[u64],
    load: Worked,
    work: &mut Workspace,
    out: &mut [u64],
) -> Result<(), Refusal>
    requires in_bounds { (36874 ≤ length state.now) × (get_or state.now 0 0 ≡ 3) × (528385 ≤ length out.old) }
    requires read_to { ReadTo state.now work.old.rows work.old.places load.asked load.batches load.sum }
    ensures { (told : Load) → lent_load state.now ≡ done told
        → RequestsAnswered (ancestors_requests (transcript_in state.now).request (transcript_in state.now).nodes told.slice 0 told.asked)
        (take load.asked work.old.rows) out.old out.new result }
{
    let mut slice = [0u64; 12_288];
    let stop = write_slice(state, load, work, &mut slice);
    let request = Request {
        triple: state[1],
        principal: state[2],
        resource: state[3],
    };
    let from = nodes_from(state[5]);
    let end = LoadState::ENTRY + state[5] as usize;
    let last = LoadState::CONTEXT + state[6] as usize;
    compute_ancestors_requests(
        &state[from..end],
        &slice[..stop],
        request,
        &state[LoadState::CONTEXT..last],
        &work.rows[..load.asked],
        out,
    )
}

// Hands out the requests of a load, whose answers are awaited then.
fn ask_ancestors(
    state: &mut [u64],
    load: Worked,
    work: &mut Workspace,
    out: &mut [u64],
) -> LoadReply
    requires in_bounds { (36874 ≤ length state.old) × (get_or state.old 0 0 ≡ 3) × (528385 ≤ length out.old) }
    requires read_to { ReadTo state.old work.old.rows work.old.places load.asked load.batches load.sum }
    ensures { HandedAs (asking_of state.old out.old (lent_load state.old)) result state.new out.new }
{
    if let Err(Refusal { number, place }) = write_requests(state, load, work, out) {
        return Err(LoadRefusal::Refused(Refusal { number, place }));
    }
    state[0] = 4;
    Ok(LoadCounts {
        count: load.asked as u64,
        batches: load.batches,
        rows: load.asked as u64,
    })
}

// Asks for the ancestors of all rows: 31, 1, 16, then by request the first of 14 and 15. A refusal leaves both buffers as they were.
pub fn load_ancestors(state: &mut [u64], out: &mut [u64]) -> LoadReply
    ensures { HandedAs (ancestors_in state.old out.old) result state.new out.new }
{
    if state.len() < LoadState::WORDS {
        return Err(LoadRefusal::SHORT);
    }
    if out.len() < REQUEST_WORDS {
        return Err(LoadRefusal::SHORT);
    }
    let mut work = Workspace::new();
    let Some(load) = work.read(state) else {
        return Err(LoadRefusal::UNLAWFUL);
    };
    if state[0] != 3 {
        return Err(LoadRefusal::OUT_OF_TURN);
    }
    ask_ancestors(state, load, &mut work, out)
}
