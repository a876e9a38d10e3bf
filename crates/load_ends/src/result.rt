// result: the slice of a load that has ended, with the answered ancestors.
ghost use Rattle.std.specs.Prelude.{◌≤◌, length, get_or};
ghost use Rattle.rules.specs.Loading.{◌then◌};
ghost use Rattle.rules.specs.LoadCalls.{result_of};
ghost use Rattle.load_state.specs.Transcripts.{transcript_in, lent_load};
ghost use Rattle.load_state.specs.Outcomes.{AnsweredAs};
ghost use Rattle.load_ends.specs.Ends.{ReadTo, handing_slice, result_in};

use answers::Lending;
use load_state::{LoadCounts, LoadRefusal, LoadReply, LoadState, Worked, Workspace};
use slices::build_slice;

// The one length of a slice that is handed out: its count, and words behind it.
const SLICE_WORDS: usize = 12_289;

// Writes the slice of a load that has ended, its count in front.
fn write_result(state: &[u64], load: Worked, work: &mut Workspace, out: &mut [u64]) -> LoadReply
    requires in_bounds { (36874 ≤ length state.now) × (5 ≤ get_or state.now 0 0) × (12289 ≤ length out.old) }
    requires read_to { ReadTo state.now work.old.rows work.old.places load.asked load.batches load.sum }
    ensures { AnsweredAs (handing_slice out.old (lent_load state.now then result_of (transcript_in state.now))) result out.new }
{
    let mut set_places = [0u64; 4_096];
    let count = state[8];
    answers::place(
        Lending::Sets,
        &state[LoadState::SETS..LoadState::WORDS],
        count,
        &mut set_places,
        0,
    );
    let end = count as usize;
    let built = build_slice(
        &state[LoadState::ANSWERS..LoadState::SETS],
        &work.rows[..load.asked],
        &work.places[..load.asked],
        &state[LoadState::SETS..LoadState::WORDS],
        &set_places[..end],
        out,
        1,
        &mut work.scratch,
    );
    out[0] = built.count;
    Ok(LoadCounts {
        count: built.count,
        batches: load.batches,
        rows: load.asked as u64,
    })
}

// Hands out the slice of a load that has ended: 31, 1, 16. The state stays.
pub fn load_result(state: &[u64], out: &mut [u64]) -> LoadReply
    ensures { AnsweredAs (result_in state.now out.old) result out.new }
{
    if state.len() < LoadState::WORDS {
        return Err(LoadRefusal::SHORT);
    }
    if out.len() < SLICE_WORDS {
        return Err(LoadRefusal::SHORT);
    }
    let mut work = Workspace::new();
    let Some(load) = work.read(state) else {
        return Err(LoadRefusal::UNLAWFUL);
    };
    if state[0] < 5 {
        return Err(LoadRefusal::OUT_OF_TURN);
    }
    write_result(state, load, &mut work, out)
}
