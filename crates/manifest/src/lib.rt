// An empty manifest, and uniting a manifest in place: with a contribution, which is adding it, or with another manifest.
#![tactic(auto)]

ghost use Rattle.std.specs.Prelude.{◌≡◌, ◌+◌, ◌<◌, ◌≤◌, length, true};
ghost use Rattle.rules.specs.Tries.{manifest as manifest_form};
ghost use Rattle.rows.specs.States.{lawful_state, storing};
ghost use Rattle.manifest.specs.Outcomes.{empty_in, LawfulOfSomeKind, united_rows, united_in, add_in, unite_in};

use rows::Kind;
use words::Refusal;

// The lent state of a manifest: its limits and its length.
#[derive(Drop)]
pub struct EntityManifest {}

impl EntityManifest {
    pub const WORDS: usize = 4_161;

    // Makes a lent state the empty manifest.
    pub fn new(out: &mut [u64]) -> Result<(), Refusal>
        ensures { (result ≡ (empty_in out.old).reply) × (out.new ≡ (empty_in out.old).buffer) }
    {
        if out.len() < EntityManifest::WORDS {
            return Err(Refusal::SHORT);
        }
        out[0] = 0;
        Ok(())
    }

    // Adds a contribution to a manifest; a refusal leaves it as it was.
    pub fn add(manifest: &mut [u64], contribution: &[u64]) -> Result<(), Refusal>
        ensures { (result ≡ (add_in manifest.old contribution.now).reply) × (manifest.new ≡ (add_in manifest.old contribution.now).buffer) }
    {
        unite_in_place(Kind::Contribution, manifest, contribution)
    }

    // Makes a manifest its union with another one; a refusal leaves it as it was.
    pub fn unite_manifests(manifest: &mut [u64], other: &[u64]) -> Result<(), Refusal>
        ensures { (result ≡ (unite_in manifest.old other.now).reply) × (manifest.new ≡ (unite_in manifest.old other.now).buffer) }
    {
        unite_in_place(Kind::Manifest, manifest, other)
    }
}

// Makes a lawful manifest its union with a lawful state of either kind; `united` is scratch.
pub fn unite_lawful(manifest: &mut [u64], other: &[u64], united: &mut [u64]) -> Result<(), Refusal>
    requires manifest_value { (lawful_state manifest_form manifest.old ≡ true) × LawfulOfSomeKind other.now }
    requires in_bounds { (4161 ≤ length manifest.old) × (4161 ≤ length united.old) }
    ensures { (result ≡ (storing manifest.old (united_rows manifest.old other.now)).reply) × (manifest.new ≡ (storing manifest.old (united_rows manifest.old other.now)).buffer) }
{
    unite(manifest, other, united)?;
    words::copy_rows(united, manifest);
    Ok(())
}

// Makes a manifest its union with a state of a kind; a refusal leaves it as it was.
fn unite_in_place(kind: Kind, manifest: &mut [u64], other: &[u64]) -> Result<(), Refusal>
    ensures { (result ≡ (united_in kind manifest.old other.now).reply) × (manifest.new ≡ (united_in kind manifest.old other.now).buffer) }
{
    if manifest.len() < EntityManifest::WORDS {
        return Err(Refusal::SHORT);
    }
    if other.len() < kind.words() {
        return Err(Refusal::SHORT);
    }
    if !rows::is_lawful(Kind::Manifest, manifest) {
        return Err(Refusal::UNLAWFUL);
    }
    if !rows::is_lawful(kind, other) {
        return Err(Refusal::UNLAWFUL);
    }
    let mut united = [0u64; EntityManifest::WORDS];
    unite_lawful(manifest, other, &mut united)
}

// The union of the rows of a manifest and of another state, in a state of its own.
fn unite(manifest: &[u64], other: &[u64], united: &mut [u64]) -> Result<(), Refusal>
    requires { (lawful_state manifest_form manifest.now ≡ true) × LawfulOfSomeKind other.now × (4161 ≤ length united.old) }
    ensures { (result ≡ (storing united.old (united_rows manifest.now other.now)).reply) × (united.new ≡ (storing united.old (united_rows manifest.now other.now)).buffer) }
{
    let manifest_end = manifest[0] as usize + 1;
    let other_end = other[0] as usize + 1;
    union::union_rows(
        Kind::Manifest,
        &manifest[1..manifest_end],
        &other[1..other_end],
        united,
    )
}
