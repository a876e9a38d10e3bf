// The words that the call batch hands out, as structs at the front of a lent slice.
ghost use Rattle.std.specs.Prelude.{◌≡◌, ◌≤◌, map, length};
ghost use Rattle.batch_rows.specs.Rows.{request_of, count_of, at_most, begins, batch_rows_in, RowsAs};

use load_state::{LoadRefusal, LoadReply};
use values::EntityRequest;

// The one length of a batch's rows.
const BATCH: usize = 4_096;

// How many rows a reply tells of, within those of a batch.
fn count_of(reply: LoadReply) -> usize
    ensures { result ≡ at_most 4096 (count_of reply) }
{
    let Ok(counts) = reply else {
        return 0;
    };
    if counts.count <= 4_096 {
        counts.count as usize
    } else {
        BATCH
    }
}

// Writes the rows that words are to the front of a slice.
fn write_rows(words: &[u64], out: &mut [EntityRequest])
    requires { length words.now ≤ length out.old }
    ensures { out.new ≡ begins (map request_of words.now) out.old }
{
    for i in 0..words.len() {
        out[i] = EntityRequest::from(words[i]);
    }
}

// Hands out the rows that wait, as structs: 31, 1, 16; a refusal leaves both buffers as they were.
pub fn load_batch_rows(state: &mut [u64], out: &mut [EntityRequest]) -> LoadReply
    ensures { RowsAs (batch_rows_in state.old out.old) result state.new out.new }
{
    if out.len() < BATCH {
        return Err(LoadRefusal::SHORT);
    }
    let mut words = [0u64; BATCH];
    let reply = load_batch::load_batch(state, &mut words);
    write_rows(&words[..count_of(reply)], out);
    reply
}
