// The C names of the front: crate entity_manifest_c exports each, and calls it here. The result is 0, or the refusal's number; `value` receives the
// refusal's place, or what the operation says beside it: the count of bytes, or whether a place is there, and is 0 otherwise.
ghost use Rattle.std.specs.Prelude.{◌≡◌};
ghost use Rattle.union.specs.Unions.{union_of};
ghost use Rattle.rows.specs.States.{has_of};
ghost use Rattle.listing.specs.Outcomes.{read_listing_in, write_in};
ghost use Rattle.manifest.specs.Outcomes.{empty_in, add_in, unite_in};
ghost use Rattle.schema_text.specs.Outcomes.{read_schema_in};
ghost use Rattle.analysis.specs.Outcomes.{analyse_in, add_policy_in};
ghost use Rattle.type_annotations.specs.Outcomes.{typed_in};
ghost use Rattle.rows.specs.declared.Kind.TheVariants.{Contribution, Manifest};
ghost use Rattle.entity_manifest.specs.Numbers.{version, reply_number, reply_place, ToldAs, written_number, written_value, held_number, held_value};

use manifest::EntityManifest;
use rows::Kind;
use words::Refusal;

// The version of the library: its first number times 65,536, and its second.
pub fn terbagyl_version() -> u64
    ensures { result ≡ version }
{
    3
}

// A reply as its number, its place beside it.
fn tell(reply: Result<(), Refusal>, value: &mut u64) -> u64
    ensures { (result ≡ reply_number reply) × (value.new ≡ reply_place reply) }
{
    match reply {
        Ok(()) => {
            *value = 0;
            0
        }
        Err(refusal) => {
            *value = refusal.place;
            refusal.number
        }
    }
}

// What was written as a number, the count of bytes or the place beside it.
fn tell_written(written: Result<usize, Refusal>, value: &mut u64) -> u64
    ensures { (result ≡ written_number written) × (value.new ≡ written_value written) }
{
    match written {
        Ok(bytes) => {
            *value = bytes as u64;
            0
        }
        Err(refusal) => {
            *value = refusal.place;
            refusal.number
        }
    }
}

// What is held as a number; beside it 0 for missing, 1 for there, 2 for there and marked, or the place.
fn tell_held(held: Result<Option<bool>, Refusal>, value: &mut u64) -> u64
    ensures { (result ≡ held_number held) × (value.new ≡ held_value held) }
{
    match held {
        Ok(None) => {
            *value = 0;
            0
        }
        Ok(Some(marked)) => {
            *value = if marked { 2 } else { 1 };
            0
        }
        Err(refusal) => {
            *value = refusal.place;
            refusal.number
        }
    }
}

// Makes a lent state the empty manifest.
pub fn terbagyl_empty_manifest(out: &mut [u64], value: &mut u64) -> u64
    ensures { ToldAs (empty_in out.old) result value.new out.new }
{
    tell(EntityManifest::new(out), value)
}

// Adds a contribution to a manifest.
pub fn terbagyl_add(manifest: &mut [u64], contribution: &[u64], value: &mut u64) -> u64
    ensures { ToldAs (add_in manifest.old contribution.now) result value.new manifest.new }
{
    tell(EntityManifest::add(manifest, contribution), value)
}

// Makes a manifest its union with another one.
pub fn terbagyl_unite_manifests(manifest: &mut [u64], other: &[u64], value: &mut u64) -> u64
    ensures { ToldAs (unite_in manifest.old other.now) result value.new manifest.new }
{
    tell(EntityManifest::unite_manifests(manifest, other), value)
}

// The union of two manifests in a third.
pub fn terbagyl_union_manifests(a: &[u64], b: &[u64], out: &mut [u64], value: &mut u64) -> u64
    ensures { ToldAs (union_of Manifest a.now b.now out.old) result value.new out.new }
{
    tell(union::union(Kind::Manifest, a, b, out), value)
}

// The union of two contributions in a third.
pub fn terbagyl_union_contributions(a: &[u64], b: &[u64], out: &mut [u64], value: &mut u64) -> u64
    ensures { ToldAs (union_of Contribution a.now b.now out.old) result value.new out.new }
{
    tell(union::union(Kind::Contribution, a, b, out), value)
}

// Whether a manifest has a place, and whether it marks it.
pub fn terbagyl_has_in_manifest(state: &[u64], place: &[u64], value: &mut u64) -> u64
    ensures { (result ≡ held_number (has_of Manifest state.now place.now)) × (value.new ≡ held_value (has_of Manifest state.now place.now)) }
{
    tell_held(rows::has(Kind::Manifest, state, place), value)
}

// Whether a contribution has a place, and whether it marks it.
pub fn terbagyl_has_in_contribution(state: &[u64], place: &[u64], value: &mut u64) -> u64
    ensures { (result ≡ held_number (has_of Contribution state.now place.now)) × (value.new ≡ held_value (has_of Contribution state.now place.now)) }
{
    tell_held(rows::has(Kind::Contribution, state, place), value)
}

// Reads the listing of a manifest into a state.
pub fn terbagyl_read_manifest(text: &[u8], out: &mut [u64], value: &mut u64) -> u64
    ensures { ToldAs (read_listing_in Manifest text.now out.old) result value.new out.new }
{
    tell(listing::read_listing(Kind::Manifest, text, out), value)
}

// Reads the listing of a contribution into a state.
pub fn terbagyl_read_contribution(text: &[u8], out: &mut [u64], value: &mut u64) -> u64
    ensures { ToldAs (read_listing_in Contribution text.now out.old) result value.new out.new }
{
    tell(listing::read_listing(Kind::Contribution, text, out), value)
}

// Writes the listing of a manifest.
pub fn terbagyl_write_manifest(state: &[u64], out: &mut [u8], value: &mut u64) -> u64
    ensures { (result ≡ written_number (write_in Manifest state.now out.old).reply) × ((value.new ≡ written_value (write_in Manifest state.now out.old).reply) × (out.new ≡ (write_in Manifest state.now out.old).buffer)) }
{
    tell_written(listing::write_listing(Kind::Manifest, state, out), value)
}

// Writes the listing of a contribution.
pub fn terbagyl_write_contribution(state: &[u64], out: &mut [u8], value: &mut u64) -> u64
    ensures { (result ≡ written_number (write_in Contribution state.now out.old).reply) × ((value.new ≡ written_value (write_in Contribution state.now out.old).reply) × (out.new ≡ (write_in Contribution state.now out.old).buffer)) }
{
    tell_written(
        listing::write_listing(Kind::Contribution, state, out),
        value,
    )
}

// Reads a schema's text into a state.
pub fn terbagyl_read_schema(text: &[u8], out: &mut [u64], value: &mut u64) -> u64
    ensures { ToldAs (read_schema_in text.now out.old) result value.new out.new }
{
    tell(schema_text::read_schema(text, out), value)
}

// Analyses a step text under a request type, with a schema, and stores the contribution.
pub fn terbagyl_analyse(
    schema: &[u64],
    request: u64,
    text: &[u8],
    out: &mut [u64],
    value: &mut u64,
) -> u64
    ensures { ToldAs (analyse_in schema.now request text.now out.old) result value.new out.new }
{
    tell(analysis::analyse(schema, request, text, out), value)
}

// Adds all contributions of a policy text to a manifest.
pub fn terbagyl_add_policy(
    schema: &[u64],
    text: &[u8],
    manifest: &mut [u64],
    value: &mut u64,
) -> u64
    ensures { ToldAs (add_policy_in schema.now text.now manifest.old) result value.new manifest.new }
{
    tell(analysis::add_policy(schema, text, manifest), value)
}

// Types a manifest by a schema, and stores what stays.
pub fn terbagyl_type(schema: &[u64], manifest: &[u64], out: &mut [u64], value: &mut u64) -> u64
    ensures { ToldAs (typed_in schema.now manifest.now out.old) result value.new out.new }
{
    tell(type_annotations::to_typed(schema, manifest, out), value)
}
