// The jobs on listings: each reads the files that the words of its command line name, calls the front, and writes the result.
#![tactic(auto)]

use entity_manifest::{Kind, Refusal};
use files::{CommandLine, Failure};
use forms::Form;
use jobs::{
    SCHEMA, WORDS, load_listing, load_schema, refuse, refuse_text, write_listing, write_typed,
};

// `list FILE`: reads a listing and writes it again.
pub fn list(line: CommandLine) -> Result<(), Failure> {
    let mut manifest = [0u64; WORDS];
    load_listing(line, 2, &mut manifest)?;
    write_listing(line.to, Kind::Manifest, &manifest)
}

// Adds all entries of a listing to a manifest.
fn unite(listing: &[u64], manifest: &mut [u64; WORDS]) -> Result<(), Refusal> {
    let mut united = [0u64; WORDS];
    entity_manifest::union(Kind::Manifest, manifest, listing, &mut united)?;
    *manifest = united;
    Ok(())
}

// Says that the listing that word i names was not added.
fn refuse_adding(line: CommandLine, i: usize, refusal: Refusal) -> Failure {
    refuse(line, i, |name| {
        messages::say_unadded(line.to.err, name, refusal.number)
    })
}

// Adds the listing that word i names to a manifest. One without an entry is no contribution, and none of a whole manifest is lost.
fn add_file(line: CommandLine, i: usize, manifest: &mut [u64; WORDS]) -> Result<(), Failure> {
    let mut listing = [0u64; WORDS];
    load_listing(line, i, &mut listing)?;
    if listing[0] == 0 {
        let refusal = Refusal::UNLAWFUL;
        return Err(refuse_text(line, i, Form::Listing, refusal, b""));
    }
    unite(&listing, manifest).map_err(|refusal| refuse_adding(line, i, refusal))
}

// `merge FILE...`: adds each listing to an empty manifest, all or nothing, and writes the listing.
pub fn merge(line: CommandLine) -> Result<(), Failure> {
    let mut manifest = [0u64; WORDS];
    for i in 2..line.count {
        add_file(line, i, &mut manifest)?;
    }
    write_listing(line.to, Kind::Manifest, &manifest)
}

// Types the listing that word 3 names.
fn type_file(line: CommandLine, schema: &[u64]) -> Result<(), Failure> {
    let mut manifest = [0u64; WORDS];
    load_listing(line, 3, &mut manifest)?;
    write_typed(line.to, line.word(3).bytes(), schema, &manifest)
}

// `type SCHEMA FILE`: types a listing by a schema, and writes the listing of what stays.
pub fn type_listing(line: CommandLine) -> Result<(), Failure> {
    let mut schema = [0u64; SCHEMA];
    load_schema(line, 2, &mut schema)?;
    type_file(line, &schema)
}
