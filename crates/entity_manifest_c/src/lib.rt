// The C names, exported: each calls the function of its name in crate entity_manifest. A slice passes as a pointer and a length.
#![tactic(auto)]

ghost use Rattle.std.specs.Prelude.{◌≡◌, [], ◌∷◌};
ghost use Rattle.union.specs.Unions.{union_of};
ghost use Rattle.rows.specs.States.{has_of};
ghost use Rattle.listing.specs.Outcomes.{read_listing_in, write_in};
ghost use Rattle.manifest.specs.Outcomes.{empty_in, add_in, unite_in};
ghost use Rattle.schema_text.specs.Outcomes.{read_schema_in};
ghost use Rattle.analysis.specs.Outcomes.{analyse_in, add_policy_in};
ghost use Rattle.type_annotations.specs.Outcomes.{typed_in};
ghost use Rattle.rows.specs.declared.Kind.TheVariants.{Contribution, Manifest};
ghost use Rattle.entity_manifest.specs.Numbers.{version, ToldAs, written_number, written_value, held_number, held_value};
ghost use Rattle.entries.specs.Bounds.{trip_bound_in};
ghost use Rattle.load_begin.specs.Begins.{begin_in};
ghost use Rattle.load_batch.specs.Handing.{batch_in};
ghost use Rattle.loader.specs.Calls.{answer_in};
ghost use Rattle.load_ancestors.specs.Asking.{ancestors_in};
ghost use Rattle.load_ends.specs.Ends.{ancestors_answer_in, result_in};
ghost use Rattle.entity_manifest.specs.LoadNumbers.{load_number, load_values, bound_reply, CallTold, HandTold};

use entity_manifest::{c, loads};

// The version of the library: its first number times 65,536, and its second.
#[unsafe(no_mangle)]
pub extern "C" fn terbagyl_version() -> u64
    ensures { result ≡ version }
{
    c::terbagyl_version()
}

// Makes a lent state the empty manifest.
#[unsafe(no_mangle)]
pub extern "C" fn terbagyl_empty_manifest(out: &mut [u64], value: &mut u64) -> u64
    ensures { ToldAs (empty_in out.old) result value.new out.new }
{
    c::terbagyl_empty_manifest(out, value)
}

// Adds a contribution to a manifest.
#[unsafe(no_mangle)]
pub extern "C" fn terbagyl_add(manifest: &mut [u64], contribution: &[u64], value: &mut u64) -> u64
    ensures { ToldAs (add_in manifest.old contribution.now) result value.new manifest.new }
{
    c::terbagyl_add(manifest, contribution, value)
}

// Makes a manifest its union with another one.
#[unsafe(no_mangle)]
pub extern "C" fn terbagyl_unite_manifests(
    manifest: &mut [u64],
    other: &[u64],
    value: &mut u64,
) -> u64
    ensures { ToldAs (unite_in manifest.old other.now) result value.new manifest.new }
{
    c::terbagyl_unite_manifests(manifest, other, value)
}

// The union of two manifests in a third.
#[unsafe(no_mangle)]
pub extern "C" fn terbagyl_union_manifests(
    a: &[u64],
    b: &[u64],
    out: &mut [u64],
    value: &mut u64,
) -> u64
    ensures { ToldAs (union_of Manifest a.now b.now out.old) result value.new out.new }
{
    c::terbagyl_union_manifests(a, b, out, value)
}

// The union of two contributions in a third.
#[unsafe(no_mangle)]
pub extern "C" fn terbagyl_union_contributions(
    a: &[u64],
    b: &[u64],
    out: &mut [u64],
    value: &mut u64,
) -> u64
    ensures { ToldAs (union_of Contribution a.now b.now out.old) result value.new out.new }
{
    c::terbagyl_union_contributions(a, b, out, value)
}

// Whether a manifest has a place, and whether it marks it.
#[unsafe(no_mangle)]
pub extern "C" fn terbagyl_has_in_manifest(state: &[u64], place: &[u64], value: &mut u64) -> u64
    ensures { (result ≡ held_number (has_of Manifest state.now place.now)) × (value.new ≡ held_value (has_of Manifest state.now place.now)) }
{
    c::terbagyl_has_in_manifest(state, place, value)
}

// Whether a contribution has a place, and whether it marks it.
#[unsafe(no_mangle)]
pub extern "C" fn terbagyl_has_in_contribution(state: &[u64], place: &[u64], value: &mut u64) -> u64
    ensures { (result ≡ held_number (has_of Contribution state.now place.now)) × (value.new ≡ held_value (has_of Contribution state.now place.now)) }
{
    c::terbagyl_has_in_contribution(state, place, value)
}

// Reads the listing of a manifest into a state.
#[unsafe(no_mangle)]
pub extern "C" fn terbagyl_read_manifest(text: &[u8], out: &mut [u64], value: &mut u64) -> u64
    ensures { ToldAs (read_listing_in Manifest text.now out.old) result value.new out.new }
{
    c::terbagyl_read_manifest(text, out, value)
}

// Reads the listing of a contribution into a state.
#[unsafe(no_mangle)]
pub extern "C" fn terbagyl_read_contribution(text: &[u8], out: &mut [u64], value: &mut u64) -> u64
    ensures { ToldAs (read_listing_in Contribution text.now out.old) result value.new out.new }
{
    c::terbagyl_read_contribution(text, out, value)
}

// Writes the listing of a manifest.
#[unsafe(no_mangle)]
pub extern "C" fn terbagyl_write_manifest(state: &[u64], out: &mut [u8], value: &mut u64) -> u64
    ensures { (result ≡ written_number (write_in Manifest state.now out.old).reply) × ((value.new ≡ written_value (write_in Manifest state.now out.old).reply) × (out.new ≡ (write_in Manifest state.now out.old).buffer)) }
{
    c::terbagyl_write_manifest(state, out, value)
}

// Writes the listing of a contribution.
#[unsafe(no_mangle)]
pub extern "C" fn terbagyl_write_contribution(state: &[u64], out: &mut [u8], value: &mut u64) -> u64
    ensures { (result ≡ written_number (write_in Contribution state.now out.old).reply) × ((value.new ≡ written_value (write_in Contribution state.now out.old).reply) × (out.new ≡ (write_in Contribution state.now out.old).buffer)) }
{
    c::terbagyl_write_contribution(state, out, value)
}

// Reads a schema's text into a state.
#[unsafe(no_mangle)]
pub extern "C" fn terbagyl_read_schema(text: &[u8], out: &mut [u64], value: &mut u64) -> u64
    ensures { ToldAs (read_schema_in text.now out.old) result value.new out.new }
{
    c::terbagyl_read_schema(text, out, value)
}

// Analyses a step text under a request type, with a schema, and stores the contribution.
#[unsafe(no_mangle)]
pub extern "C" fn terbagyl_analyse(
    schema: &[u64],
    request: u64,
    text: &[u8],
    out: &mut [u64],
    value: &mut u64,
) -> u64
    ensures { ToldAs (analyse_in schema.now request text.now out.old) result value.new out.new }
{
    c::terbagyl_analyse(schema, request, text, out, value)
}

// Adds all contributions of a policy text to a manifest.
#[unsafe(no_mangle)]
pub extern "C" fn terbagyl_add_policy(
    schema: &[u64],
    text: &[u8],
    manifest: &mut [u64],
    value: &mut u64,
) -> u64
    ensures { ToldAs (add_policy_in schema.now text.now manifest.old) result value.new manifest.new }
{
    c::terbagyl_add_policy(schema, text, manifest, value)
}

// Types a manifest by a schema, and stores what stays.
#[unsafe(no_mangle)]
pub extern "C" fn terbagyl_type(
    schema: &[u64],
    manifest: &[u64],
    out: &mut [u64],
    value: &mut u64,
) -> u64
    ensures { ToldAs (typed_in schema.now manifest.now out.old) result value.new out.new }
{
    c::terbagyl_type(schema, manifest, out, value)
}

// Tells what a load takes at most.
#[unsafe(no_mangle)]
pub extern "C" fn terbagyl_trip_bound(
    manifest: &[u64],
    request: u64,
    value: &mut u64,
    first: &mut u64,
    second: &mut u64,
) -> u64
    ensures { (result ≡ load_number (bound_reply (trip_bound_in manifest.now request))) × ((value.new ∷ first.new ∷ second.new ∷ []) ≡ load_values (bound_reply (trip_bound_in manifest.now request))) }
{
    loads::terbagyl_trip_bound(manifest, request, value, first, second)
}

// Begins a load.
#[unsafe(no_mangle)]
pub extern "C" fn terbagyl_load_begin(
    manifest: &[u64],
    triple: u64,
    principal: u64,
    resource: u64,
    context: &[u64],
    state: &mut [u64],
    value: &mut u64,
    first: &mut u64,
    second: &mut u64,
) -> u64
    ensures { CallTold (begin_in manifest.now triple principal resource context.now state.old) result (value.new ∷ first.new ∷ second.new ∷ []) state.new }
{
    loads::terbagyl_load_begin(
        manifest, triple, principal, resource, context, state, value, first, second,
    )
}

// Hands out the rows that wait.
#[unsafe(no_mangle)]
pub extern "C" fn terbagyl_load_batch(
    state: &mut [u64],
    out: &mut [u64],
    value: &mut u64,
    first: &mut u64,
    second: &mut u64,
) -> u64
    ensures { HandTold (batch_in state.old out.old) result (value.new ∷ first.new ∷ second.new ∷ []) state.new out.new }
{
    loads::terbagyl_load_batch(state, out, value, first, second)
}

// Takes a batch's answers.
#[unsafe(no_mangle)]
pub extern "C" fn terbagyl_load_answer(
    state: &mut [u64],
    answers: &[u64],
    value: &mut u64,
    first: &mut u64,
    second: &mut u64,
) -> u64
    ensures { CallTold (answer_in state.old answers.now) result (value.new ∷ first.new ∷ second.new ∷ []) state.new }
{
    loads::terbagyl_load_answer(state, answers, value, first, second)
}

// Hands out the ancestors requests.
#[unsafe(no_mangle)]
pub extern "C" fn terbagyl_load_ancestors(
    state: &mut [u64],
    out: &mut [u64],
    value: &mut u64,
    first: &mut u64,
    second: &mut u64,
) -> u64
    ensures { HandTold (ancestors_in state.old out.old) result (value.new ∷ first.new ∷ second.new ∷ []) state.new out.new }
{
    loads::terbagyl_load_ancestors(state, out, value, first, second)
}

// Takes the answered ancestors.
#[unsafe(no_mangle)]
pub extern "C" fn terbagyl_load_ancestors_answer(
    state: &mut [u64],
    sets: &[u64],
    value: &mut u64,
    first: &mut u64,
    second: &mut u64,
) -> u64
    ensures { CallTold (ancestors_answer_in state.old sets.now) result (value.new ∷ first.new ∷ second.new ∷ []) state.new }
{
    loads::terbagyl_load_ancestors_answer(state, sets, value, first, second)
}

// Hands out the slice of a load that has ended.
#[unsafe(no_mangle)]
pub extern "C" fn terbagyl_load_result(
    state: &[u64],
    out: &mut [u64],
    value: &mut u64,
    first: &mut u64,
    second: &mut u64,
) -> u64
    ensures { CallTold (result_in state.now out.old) result (value.new ∷ first.new ∷ second.new ∷ []) out.new }
{
    loads::terbagyl_load_result(state, out, value, first, second)
}
