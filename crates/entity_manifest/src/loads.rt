// The C names of loads: crate entity_manifest_c exports each, and calls it here. The result is 0, or the refusal's number. `value` receives what the call counts, or the refusal's place; `first` and
// `second` the batches and rows asked so far, or at most, beside 12 the expected count and the one that was got, and beside any other
// refusal 0.
ghost use Rattle.std.specs.Prelude.{◌≡◌, [], ◌∷◌};
ghost use Rattle.entries.specs.Bounds.{trip_bound_in};
ghost use Rattle.load_begin.specs.Begins.{begin_in};
ghost use Rattle.load_batch.specs.Handing.{batch_in};
ghost use Rattle.loader.specs.Calls.{answer_in};
ghost use Rattle.load_ancestors.specs.Asking.{ancestors_in};
ghost use Rattle.load_ends.specs.Ends.{ancestors_answer_in, result_in};
ghost use Rattle.entity_manifest.specs.LoadNumbers.{load_number, load_values, bound_reply, CallTold, HandTold};

use entries::TripBound;
use load_state::{LoadCounts, LoadRefusal, LoadReply};
use words::Refusal;

// A reply as its number, its values beside it.
fn tell_load(reply: LoadReply, value: &mut u64, first: &mut u64, second: &mut u64) -> u64
    ensures { (result ≡ load_number reply) × ((value.new ∷ first.new ∷ second.new ∷ []) ≡ load_values reply) }
{
    match reply {
        Ok(counts) => {
            *value = counts.count;
            *first = counts.batches;
            *second = counts.rows;
            0
        }
        Err(LoadRefusal::Refused(refusal)) => {
            *value = refusal.place;
            *first = 0;
            *second = 0;
            refusal.number
        }
        Err(LoadRefusal::Counted { expected, got }) => {
            *value = 0;
            *first = expected;
            *second = got;
            12
        }
    }
}

// A bound as a reply: the ancestors calls are what is counted.
fn bound_reply(bound: Result<TripBound, Refusal>) -> LoadReply
    ensures { result ≡ bound_reply bound }
{
    match bound {
        Ok(most) => Ok(LoadCounts {
            count: most.ancestors,
            batches: most.batches,
            rows: most.rows,
        }),
        Err(refusal) => Err(LoadRefusal::Refused(refusal)),
    }
}

// Tells what a load takes at most.
pub fn terbagyl_trip_bound(
    manifest: &[u64],
    request: u64,
    value: &mut u64,
    first: &mut u64,
    second: &mut u64,
) -> u64
    ensures { (result ≡ load_number (bound_reply (trip_bound_in manifest.now request))) × ((value.new ∷ first.new ∷ second.new ∷ []) ≡ load_values (bound_reply (trip_bound_in manifest.now request))) }
{
    tell_load(
        bound_reply(entries::trip_bound(manifest, request)),
        value,
        first,
        second,
    )
}

// Begins a load.
pub fn terbagyl_load_begin(
    manifest: &[u64],
    triple: u64,
    principal: u64,
    resource: u64,
    context: &[u64],
    state: &mut [u64],
    value: &mut u64,
    first: &mut u64,
    second: &mut u64,
) -> u64
    ensures { CallTold (begin_in manifest.now triple principal resource context.now state.old) result (value.new ∷ first.new ∷ second.new ∷ []) state.new }
{
    tell_load(
        load_begin::load_begin(manifest, triple, principal, resource, context, state),
        value,
        first,
        second,
    )
}

// Hands out the rows that wait.
pub fn terbagyl_load_batch(
    state: &mut [u64],
    out: &mut [u64],
    value: &mut u64,
    first: &mut u64,
    second: &mut u64,
) -> u64
    ensures { HandTold (batch_in state.old out.old) result (value.new ∷ first.new ∷ second.new ∷ []) state.new out.new }
{
    tell_load(load_batch::load_batch(state, out), value, first, second)
}

// Takes a batch's answers.
pub fn terbagyl_load_answer(
    state: &mut [u64],
    answers: &[u64],
    value: &mut u64,
    first: &mut u64,
    second: &mut u64,
) -> u64
    ensures { CallTold (answer_in state.old answers.now) result (value.new ∷ first.new ∷ second.new ∷ []) state.new }
{
    tell_load(loader::load_answer(state, answers), value, first, second)
}

// Hands out the ancestors requests.
pub fn terbagyl_load_ancestors(
    state: &mut [u64],
    out: &mut [u64],
    value: &mut u64,
    first: &mut u64,
    second: &mut u64,
) -> u64
    ensures { HandTold (ancestors_in state.old out.old) result (value.new ∷ first.new ∷ second.new ∷ []) state.new out.new }
{
    tell_load(
        load_ancestors::load_ancestors(state, out),
        value,
        first,
        second,
    )
}

// Takes the answered ancestors.
pub fn terbagyl_load_ancestors_answer(
    state: &mut [u64],
    sets: &[u64],
    value: &mut u64,
    first: &mut u64,
    second: &mut u64,
) -> u64
    ensures { CallTold (ancestors_answer_in state.old sets.now) result (value.new ∷ first.new ∷ second.new ∷ []) state.new }
{
    tell_load(
        load_ends::load_ancestors_answer(state, sets),
        value,
        first,
        second,
    )
}

// Hands out the slice of a load that has ended.
pub fn terbagyl_load_result(
    state: &[u64],
    out: &mut [u64],
    value: &mut u64,
    first: &mut u64,
    second: &mut u64,
) -> u64
    ensures { CallTold (result_in state.now out.old) result (value.new ∷ first.new ∷ second.new ∷ []) out.new }
{
    tell_load(load_ends::load_result(state, out), value, first, second)
}
