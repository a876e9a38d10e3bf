// A load, call after call, and its log.
ghost use Rattle.std.specs.Prelude.{◌<◌, ◌≤◌, length};

use crate::telling::{Stop, called, refused};
use batch_rows::load_batch_rows;
use entity_manifest::{EntityRequest, LoadCounts, LoadRefusal, LoadReply};
use files::{Failure, To};
use load_answers::{Store, answer_requests, answer_rows, turn_of};
use load_log::{write_batch, write_line, write_requests, write_slice};
use value_text::Request;

// The words of a load's state, of answers, of ancestors requests and of a slice, and the rows of a batch.
const STATE: usize = 36_874;

const ANSWERS: usize = 24_577;

const REQUESTS: usize = 528_385;

const SLICE: usize = 12_289;

const BATCH: usize = 4_096;

// More batches than a load has: a node's depth is at most 24, and each batch is deeper.
const BATCHES: u64 = 25;

// The word that names the request, and the one that names the first store.
const REQUEST: usize = 3;

const FIRST_STORE: usize = 4;

// The word that names the store which a refusal is about: the one whose turn its place was, behind the first.
fn word_of(reply: LoadReply, stores: &[Store], first: u64) -> usize
    requires { length stores.now < 16 }
{
    let place = match reply {
        Err(LoadRefusal::Refused(refusal)) => refusal.place,
        _ => 0,
    };
    FIRST_STORE + turn_of(stores, first, place)
}

// Has the rows of a batch answered by the stores, and takes the answers.
fn answer_batch(
    stores: &[Store],
    first: u64,
    rows: &[EntityRequest],
    state: &mut [u64],
) -> Result<(), Stop>
    requires { length stores.now < 16 }
{
    let mut answers = [0u64; ANSWERS];
    answers[0] = rows.len() as u64;
    answer_rows(stores, first, rows, &mut answers);
    let reply = entity_manifest::load_answer(state, &answers);
    called(word_of(reply, stores, first), reply)
}

// Hands out a batch, writes it, and has it answered.
fn run_batch(to: To, number: u64, stores: &[Store], state: &mut [u64]) -> Result<(), Stop>
    requires { length stores.now < 16 }
{
    let blank = EntityRequest { id: 0, node: 0 };
    let mut room = [blank; BATCH];
    let reply = load_batch_rows(state, &mut room);
    let Ok(
        LoadCounts {
            count,
            rows: asked,
            ..
        },
    ) = reply
    else {
        return Err(refused(FIRST_STORE, reply));
    };
    if 4_096 < count {
        return Err(Stop::Told(Failure::Refused));
    }
    let rows = &room[..count as usize];
    write_batch(to, number, rows)?;
    answer_batch(stores, asked.wrapping_sub(count), rows, state)
}

// Runs batches as long as one waits.
fn run_batches(to: To, stores: &[Store], state: &mut [u64]) -> Result<(), Stop>
    requires { (length stores.now < 16) × (1 ≤ length state.old) }
{
    for number in 0..BATCHES {
        if state[0] != 1 {
            break;
        }
        run_batch(to, number, stores, state)?;
    }
    Ok(())
}

// Has the ancestors requests answered by the stores, and takes the answers.
fn answer_ancestors(stores: &[Store], requests: &[u64], state: &mut [u64]) -> Result<(), Stop>
    requires { (length stores.now < 16) × (4097 ≤ length requests.now) }
{
    let mut sets = [0u64; ANSWERS];
    sets[0] = requests[0];
    answer_requests(stores, requests, &mut sets);
    let reply = entity_manifest::load_ancestors_answer(state, &sets);
    called(word_of(reply, stores, 0), reply)
}

// Hands out the ancestors requests, writes them, and has them answered.
fn ask_ancestors(
    to: To,
    stores: &[Store],
    requests: &mut [u64],
    state: &mut [u64],
) -> Result<(), Stop>
    requires { (length stores.now < 16) × (4097 ≤ length requests.old) }
{
    let reply = entity_manifest::load_ancestors(state, requests);
    let Ok(_) = reply else {
        return Err(Stop::Refused {
            word: word_of(reply, stores, 0),
            is_asking: true,
            reply,
        });
    };
    write_requests(to, requests)?;
    answer_ancestors(stores, requests, state)
}

// Asks for the ancestors where they are to be asked, in words of their own.
fn run_ancestors(to: To, stores: &[Store], state: &mut [u64]) -> Result<(), Stop>
    requires { (length stores.now < 16) × (1 ≤ length state.old) }
{
    if state[0] != 3 {
        return Ok(());
    }
    let mut requests = [0u64; REQUESTS];
    ask_ancestors(to, stores, &mut requests, state)
}

// Writes the slice of a load that has ended, and its two counts.
fn end_loaded(to: To, state: &[u64]) -> Result<(), Stop> {
    let mut slice = [0u64; SLICE];
    let reply = entity_manifest::load_result(state, &mut slice);
    let Ok(LoadCounts { batches, rows, .. }) = reply else {
        return Err(refused(FIRST_STORE, reply));
    };
    write_slice(to, &slice)?;
    write_line(to, b'Z', &[batches, rows])?;
    Ok(())
}

// Runs a load that has begun: batches, ancestors where they are to be asked, and the result.
fn run_begun(to: To, stores: &[Store], state: &mut [u64]) -> Result<(), Stop>
    requires { (length stores.now < 16) × (1 ≤ length state.old) }
{
    run_batches(to, stores, state)?;
    run_ancestors(to, stores, state)?;
    end_loaded(to, state)
}

// Runs a load against stores, and writes its log but for a refusal.
pub fn run(
    to: To,
    request: Request,
    manifest: &[u64],
    context: &[u64],
    stores: &[Store],
) -> Result<(), Stop>
    requires { length stores.now < 16 }
{
    let mut state = [0u64; STATE];
    let reply = entity_manifest::load_begin(
        manifest,
        request.request_type,
        request.principal,
        request.resource,
        context,
        &mut state,
    );
    called(REQUEST, reply)?;
    run_begun(to, stores, &mut state)
}
