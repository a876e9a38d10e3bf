// What all jobs share: a refusal told, a text read and taken, a manifest drawn with names, a listing written, also of a manifest that is typed
// first.
#![tactic(auto)]

use entity_manifest::{Kind, Refusal};
use files::{CommandLine, Failure, ROOM, To};
use forms::Form;
use row_labels::Names;

// The words of a manifest and of a schema, and the bytes of a listing.
pub const WORDS: usize = 4_161;

pub const SCHEMA: usize = 142_337;

pub const LISTING: usize = 62_720;

// Refuses what word i names, and has that said. A file behind it that is too long or cannot be read comes before that.
pub fn refuse<F: FnOnce(&[u8])>(line: CommandLine, i: usize, say: F) -> Failure
    requires { F.IsAlwaysCallable say }
{
    if let Err(failure) = line.pass_behind(i) {
        return failure;
    }
    say(line.word(i).bytes());
    Failure::Refused
}

// Says why the text that word i names is refused.
pub fn refuse_text(
    line: CommandLine,
    i: usize,
    form: Form,
    refusal: Refusal,
    text: &[u8],
) -> Failure {
    refuse(line, i, |name| {
        messages::say_refused(line.to.err, name, form, refusal, text)
    })
}

// Reads the text that word i names, and has it taken.
pub fn read<T, F: FnOnce(&[u8]) -> Result<T, Refusal>>(
    line: CommandLine,
    i: usize,
    form: Form,
    take: F,
) -> Result<T, Failure>
    requires { F.IsAlwaysCallable take }
{
    let mut room = [0u8; ROOM];
    let text = line.load(i, &mut room)?;
    take(text).map_err(|refusal| refuse_text(line, i, form, refusal, text))
}

// Reads the schema that word i names.
pub fn load_schema(line: CommandLine, i: usize, schema: &mut [u64]) -> Result<(), Failure> {
    read(line, i, Form::Schema, |text| {
        entity_manifest::read_schema(text, schema)
    })
}

// Reads the listing that word i names.
pub fn load_listing(line: CommandLine, i: usize, manifest: &mut [u64]) -> Result<(), Failure> {
    read(line, i, Form::Listing, |text| {
        entity_manifest::read_listing(Kind::Manifest, text, manifest)
    })
}

// Reads the name table that word 3 names, where there is such a word; otherwise there are no names.
fn load_names<'r>(
    line: CommandLine,
    room: &'r mut [u8],
    words: &'r mut [u64],
) -> Result<Names<'r>, Failure> {
    if line.count < 4 {
        return Ok(Names {
            text: &[],
            words: &[],
        });
    }
    let text = line.load(3, room)?;
    let reply = name_table::read_names(text, words);
    reply.map_err(|refusal| refuse_text(line, 3, Form::Names, refusal, text))?;
    Ok(Names { text, words })
}

// Reads the listing that word 2 names and the name table, if one is named, and has them drawn.
pub fn draw<F: FnOnce(&[u64], Names) -> Result<(), Failure>>(
    line: CommandLine,
    draw: F,
) -> Result<(), Failure>
    requires { F.IsAlwaysCallable draw }
{
    let mut manifest = [0u64; WORDS];
    load_listing(line, 2, &mut manifest)?;
    let mut room = [0u8; ROOM];
    let mut words = [0u64; name_table::WORDS];
    let names = load_names(line, &mut room, &mut words)?;
    draw(&manifest, names)
}

// The listing of a manifest, or of a contribution, in lent room.
fn listing_of<'r>(kind: Kind, state: &[u64], room: &'r mut [u8]) -> Result<&'r [u8], Failure> {
    let Ok(n) = entity_manifest::write_listing(kind, state, room) else {
        return Err(Failure::Refused);
    };
    room.get(..n).ok_or(Failure::Refused)
}

// Writes the listing of a manifest, or of a contribution.
pub fn write_listing(to: To, kind: Kind, state: &[u64]) -> Result<(), Failure> {
    let mut room = [0u8; LISTING];
    files::write(to, listing_of(kind, state, &mut room)?)
}

// Says that a node of a manifest cannot be typed, with its line in the manifest's listing.
fn refuse_node(to: To, name: &[u8], manifest: &[u64], refusal: Refusal) -> Failure {
    let mut room = [0u8; LISTING];
    if let Ok(listing) = listing_of(Kind::Manifest, manifest, &mut room) {
        messages::say_untyped(to.err, name, refusal, listing);
    }
    Failure::Refused
}

// Types a manifest and writes the listing of what stays; `name` is what a message calls the manifest.
pub fn write_typed(to: To, name: &[u8], schema: &[u64], manifest: &[u64]) -> Result<(), Failure> {
    let mut typed = [0u64; WORDS];
    let reply = entity_manifest::to_typed(schema, manifest, &mut typed);
    reply.map_err(|refusal| refuse_node(to, name, manifest, refusal))?;
    write_listing(to, Kind::Manifest, &typed)
}
