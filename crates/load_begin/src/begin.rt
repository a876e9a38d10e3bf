// begin: a load's transcript with nothing answered yet.
ghost use Rattle.std.specs.Prelude.{◌≡◌, ◌+◌, ◌≤◌, ◌<◌, length, take, drop, true};
ghost use Rattle.rules.specs.Tries.{nodes_in};
ghost use Rattle.rules.specs.Loading.{load_begun};
ghost use Rattle.rules.specs.LoadCalls.{entry_for};
ghost use Rattle.rows.specs.States.{all_words, rows_of};
ghost use Rattle.row_walk.specs.Initial.{request_with};
ghost use Rattle.load_state.specs.Outcomes.{AnsweredAs};
ghost use Rattle.load_begin.specs.Begins.{lawful_context, begun_state, entry_words, begun_with, begun_by, begin_in};

use entries::find_entry;
use load_state::{LoadCounts, LoadRefusal, LoadReply, LoadState, is_request, turn_for};
use row_walk::{Request, initial_entities_to_load};
use rows::Kind;
use values::is_lawful;
use words::Refusal;

// Whether a lent context is a record of at most 8,192 rows.
fn is_lawful_context(context: &[u64]) -> bool
    requires { 8193 ≤ length context.now }
    ensures { result ≡ lawful_context context.now }
{
    let count = context[0];
    if LoadState::CONTEXT_WORDS as u64 <= count {
        return false;
    }
    let end = count as usize + 1;
    let mut levels = [0u64; 8_193];
    is_lawful(&context[1..end], &mut levels)
}

// Stores a load's first words, the entry and the context.
fn store_begun(
    state: &mut [u64],
    turn: u64,
    request: Request,
    first: u64,
    entry: &[u64],
    context: &[u64],
)
    requires { (36874 ≤ length state.old) × ((length entry.now ≤ 4097) × (length context.now ≤ 8192)) }
    ensures { state.new ≡ begun_state state.old turn request.triple request.principal request.resource first entry.now context.now }
{
    let head = [
        turn,
        request.triple,
        request.principal,
        request.resource,
        first,
        entry.len() as u64,
        context.len() as u64,
        0,
        0,
    ];
    words::copy_words(&head, state, 0);
    words::copy_words(entry, state, LoadState::ENTRY);
    words::copy_words(context, state, LoadState::CONTEXT);
}

// Begins with the entry whose own row stands at a place of a manifest's rows: its first batch is judged, and the load is stored.
fn begin_entry(
    rows: &[u64],
    first: u64,
    at: usize,
    count: usize,
    request: Request,
    context: &[u64],
    state: &mut [u64],
) -> LoadReply
    requires count_in_bounds { (at + 1 + count ≤ length rows.now) × ((count ≤ 4096) × (length context.now ≤ 8192)) }
    requires principal_bound { (request.principal < 65536) × ((request.resource < 65536) × (36874 ≤ length state.old)) }
    requires rows_value { take (count + 1) (drop at rows.now) ≡ entry_words request.triple (rows_of (take count (drop (at + 1) rows.now))) }
    ensures { AnsweredAs (begun_with request.triple request.principal request.resource context.now state.old first (rows_of (take count (drop (at + 1) rows.now))) (load_begun (request_with request context.now) (rows_of (take count (drop (at + 1) rows.now))))) result state.new }
{
    let from = at + 1;
    let end = from + count;
    let mut found = [0u64; 4_096];
    let Some(waiting) = initial_entities_to_load(
        &rows[from..end],
        0,
        0,
        request,
        context,
        &mut found,
        0,
    ) else {
        return Err(LoadRefusal::Refused(Refusal {
            number: 14,
            place: 0,
        }));
    };
    let turn = turn_for(waiting);
    store_begun(state, turn, request, first, &rows[at..end], context);
    Ok(LoadCounts {
        count: count as u64,
        batches: 0,
        rows: 0,
    })
}

// Begins with the entry of the request's type, if a manifest's rows have one; otherwise the load has ended.
fn begin_load(rows: &[u64], request: Request, context: &[u64], state: &mut [u64]) -> LoadReply
    requires rows_value { (all_words rows.now ≡ true) × ((nodes_in (rows_of rows.now) ≤ 4096) × (length context.now ≤ 8192)) }
    requires principal_bound { (request.principal < 65536) × ((request.resource < 65536) × (36874 ≤ length state.old)) }
    ensures { AnsweredAs (begun_by request.triple request.principal request.resource context.now state.old (entry_for request.triple 0 (rows_of rows.now))) result state.new }
{
    match find_entry(rows, request.triple) {
        None => {
            store_begun(state, 5, request, 0, &rows[..0], context);
            Ok(LoadCounts {
                count: 0,
                batches: 0,
                rows: 0,
            })
        }
        Some(entry) => begin_entry(
            rows,
            entry.first,
            entry.at,
            entry.nodes,
            request,
            context,
            state,
        ),
    }
}

// Begins a load: 31, then 1 at 0 for the manifest, the request or the context, then 14; a refusal leaves the state as it was.
pub fn load_begin(
    manifest: &[u64],
    triple: u64,
    principal: u64,
    resource: u64,
    context: &[u64],
    state: &mut [u64],
) -> LoadReply
    ensures { AnsweredAs (begin_in manifest.now triple principal resource context.now state.old) result state.new }
{
    if manifest.len() < Kind::Manifest.words() {
        return Err(LoadRefusal::SHORT);
    }
    if context.len() < LoadState::CONTEXT_WORDS {
        return Err(LoadRefusal::SHORT);
    }
    if state.len() < LoadState::WORDS {
        return Err(LoadRefusal::SHORT);
    }
    if !rows::is_lawful(Kind::Manifest, manifest) {
        return Err(LoadRefusal::UNLAWFUL);
    }
    if !is_request(triple, principal, resource) {
        return Err(LoadRefusal::UNLAWFUL);
    }
    if !is_lawful_context(context) {
        return Err(LoadRefusal::UNLAWFUL);
    }
    let end = manifest[0] as usize + 1;
    let last = context[0] as usize + 1;
    let request = Request {
        triple,
        principal,
        resource,
    };
    begin_load(&manifest[1..end], request, &context[1..last], state)
}
