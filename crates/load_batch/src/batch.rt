// batch: the rows that wait, handed out once.
ghost use Rattle.std.specs.Prelude.{◌≡◌, map, ℕ, ◌^◌, ◌≤◌, ◌<◌, length, get_or};
ghost use Rattle.std.proofs.lemmas.List.Edits.{sets};
ghost use Rattle.values.specs.ValueWords.{row_asked, request_word};
ghost use Rattle.load_state.specs.Outcomes.{HandedAs};
ghost use Rattle.load_batch.specs.Handing.{numbered, batch_in};

use load_state::{LoadCounts, LoadRefusal, LoadReply, LoadState, Workspace};
use values::EntityRequest;

// The one length of a batch's rows.
const BATCH_WORDS: usize = 4_096;

// Writes rows from the front of a buffer on, each with its node's number among all nodes of the manifest.
fn write_batch(rows: &[u64], first: u64, out: &mut [u64])
    requires rows_in_bounds { (length rows.now ≤ length out.old) × (first < 4098) }
    requires by_index { (k : ℕ) → k < length rows.now → get_or rows.now k 0 < 2 ^ 32 }
    ensures { out.new ≡ sets out.old 0 (map (λ w. request_word (numbered first (row_asked w))) rows.now) }
{
    for i in 0..rows.len() {
        let row = EntityRequest::from(rows[i]);
        let asked = EntityRequest {
            id: row.id,
            node: first + row.node,
        };
        out[i] = asked.word();
    }
}

// Hands out the rows that wait: 31, 1, 16; a refusal leaves both buffers as they were.
pub fn load_batch(state: &mut [u64], out: &mut [u64]) -> LoadReply
    ensures { HandedAs (batch_in state.old out.old) result state.new out.new }
{
    if state.len() < LoadState::WORDS {
        return Err(LoadRefusal::SHORT);
    }
    if out.len() < BATCH_WORDS {
        return Err(LoadRefusal::SHORT);
    }
    let mut work = Workspace::new();
    let Some(load) = work.read(state) else {
        return Err(LoadRefusal::UNLAWFUL);
    };
    if state[0] != 1 {
        return Err(LoadRefusal::OUT_OF_TURN);
    }
    write_batch(&work.rows[load.asked..load.end], state[4], out);
    state[0] = 2;
    Ok(LoadCounts {
        count: (load.end - load.asked) as u64,
        batches: load.batches + 1,
        rows: load.end as u64,
    })
}
