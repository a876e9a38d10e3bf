// The jobs on policies: a manifest built of policy texts, also typed, and a step text analysed.
#![tactic(auto)]

use entity_manifest::Kind;
use files::{CommandLine, Failure};
use forms::Form;
use jobs::{SCHEMA, WORDS, load_schema, read, write_listing, write_typed};

// Adds the policy texts that the words from `first` on name to a manifest.
fn add_policies(
    line: CommandLine,
    first: usize,
    schema: &[u64],
    manifest: &mut [u64],
) -> Result<(), Failure> {
    for i in first..line.count {
        read(line, i, Form::Policy, |text| {
            entity_manifest::add_policy(schema, text, manifest)
        })?;
    }
    Ok(())
}

// `build SCHEMA FILE...`: adds all policy texts to an empty manifest, all or nothing, and writes the listing.
pub fn build(line: CommandLine) -> Result<(), Failure> {
    let mut schema = [0u64; SCHEMA];
    load_schema(line, 2, &mut schema)?;
    let mut manifest = [0u64; WORDS];
    add_policies(line, 3, &schema, &mut manifest)?;
    write_listing(line.to, Kind::Manifest, &manifest)
}

// `build --typed SCHEMA FILE...`: adds all policy texts to an empty manifest, types it, and writes the listing of what stays.
pub fn build_typed(line: CommandLine) -> Result<(), Failure> {
    let mut schema = [0u64; SCHEMA];
    load_schema(line, 3, &mut schema)?;
    let mut manifest = [0u64; WORDS];
    add_policies(line, 4, &schema, &mut manifest)?;
    write_typed(line.to, b"what was built", &schema, &manifest)
}

// Analyses the step text that word 6 names, with the schema that word 5 names, and writes the contribution.
pub fn analyse(line: CommandLine, request: u64) -> Result<(), Failure> {
    let mut schema = [0u64; SCHEMA];
    load_schema(line, 5, &mut schema)?;
    let mut contribution = [0u64; 1_026];
    read(line, 6, Form::Steps, |text| {
        entity_manifest::analyse(&schema, request, text, &mut contribution)
    })?;
    write_listing(line.to, Kind::Contribution, &contribution)
}
