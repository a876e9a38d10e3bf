// Replays the vectors of data/: manifests typed by a schema, with what is left of them and the type of each node, or the refusal. Of those of
// data/oracle the file stdout has the published Rust's answers.
#![tactic(auto)]

ghost use Rattle.std.specs.Prelude.{◌≤◌};

use cases::{Case, Refused};
use entity_manifest::{Kind, Refusal};
use rows::Row;
use std::alloc::Global;
use std::io;

// The longest text of a case, and the length of a listing out.
const TEXT: usize = 65_536;

const LISTING: usize = 62_720;

// The words of a schema and of a manifest, and one more each, so that a buffer can be too long too.
const SCHEMA: usize = 142_338;

const MANIFEST: usize = 4_162;

// What each word of an output is before typing, and the most rows that an answer shows.
const BLANK: u64 = 0x5555_5555_5555_5555;

const SHOWN: usize = 128;

// The text of a field, in escapes, and many lines and an end behind it where the case is of a kind.
fn text_of(alloc: Global, case: Case, n: usize, many: &[u8]) -> io::Result<Vec<u8>> {
    let mut text = case.decoded(alloc, n, TEXT)?;
    if case.is(0, many) {
        case.decode_many(4, 5, 6, &mut text, TEXT)?;
        case.decode(7, &mut text, TEXT)?;
    }
    Ok(text)
}

// Reads the schema of a field, and answers whether it was accepted; a refusal is told.
fn read_schema(rt: &HostRuntime, case: Case, n: usize, state: &mut [u64]) -> io::Result<bool> {
    let text = text_of(rt.alloc(), case, n, b"many")?;
    tell_unless(rt, "SCHEMA", entity_manifest::read_schema(&text, state))
}

// The same for the manifest of a field.
fn read_manifest(rt: &HostRuntime, case: Case, n: usize, state: &mut [u64]) -> io::Result<bool> {
    let text = text_of(rt.alloc(), case, n, b"wide")?;
    tell_unless(
        rt,
        "LISTING",
        entity_manifest::read_listing(Kind::Manifest, &text, state),
    )
}

// Whether a call was accepted; a refusal is told, after what was refused.
fn tell_unless(rt: &HostRuntime, what: &str, reply: Result<(), Refusal>) -> io::Result<bool> {
    match reply {
        Ok(()) => Ok(true),
        Err(refusal) => {
            print!(rt; "{what} {}", Refused(refusal))?;
            Ok(false)
        }
    }
}

// Says whether words of an output changed.
fn tell_changes(rt: &HostRuntime, words: &[u64]) -> io::Result<()> {
    if words.iter().any(|word| *word != BLANK) {
        print!(rt; " CHANGED")?;
    }
    Ok(())
}

// Says the first lines of a listing, each node with its type beside it.
fn tell_rows(rt: &HostRuntime, listing: &[u8], rows: &[u64]) -> io::Result<()> {
    for (line, word) in listing.split(|b| *b == b'\n').zip(rows).take(SHOWN) {
        println!(rt)?;
        cases::print_bytes(rt, line)?;
        if (Row { word: *word }).depth() != 0 {
            print!(rt; " type {}", word / 0x200_0000 % 0x800)?;
        }
    }
    Ok(())
}

// Says the first rows of a manifest.
fn tell_manifest(rt: &HostRuntime, state: &[u64], rows: &[u64]) -> io::Result<()> {
    let mut out = [0u8; LISTING];
    match entity_manifest::write_listing(Kind::Manifest, state, &mut out) {
        Err(refusal) => print!(rt; "UNLAWFUL {}", Refused(refusal)),
        Ok(n) => tell_rows(rt, out.get(..n).unwrap_or(&[]), rows),
    }
}

// Says what came of a call: how many rows its output has, whether it changed behind them, and the first of them; or the refusal and whether the
// output changed.
fn tell(rt: &HostRuntime, reply: Result<(), Refusal>, out: &[u64]) -> io::Result<()> {
    if let Err(refusal) = reply {
        print!(rt; "{}", Refused(refusal))?;
        return tell_changes(rt, out);
    }
    let Some((count, words)) = out.split_first() else {
        return Ok(());
    };
    print!(rt; "{count} rows")?;
    let (rows, behind) = words.split_at(words.len().min(*count as usize));
    tell_changes(rt, behind)?;
    tell_manifest(rt, out, rows)
}

// Types a manifest.
fn ask_typed(rt: &HostRuntime, schema: &[u64], manifest: &[u64]) -> io::Result<()> {
    let mut out = [BLANK; MANIFEST];
    let reply = entity_manifest::to_typed(schema, manifest, &mut out);
    tell(rt, reply, &out)
}

// Sets a word of the state that a case names: its place and its number, in hexadecimal digits, are fields of the case.
fn set_word(case: Case, name: &[u8], state: &mut [u64]) {
    if case.is(7, name)
        && let Some(word) = state.get_mut(usize::from(case.number(8)))
    {
        *word = case.word(9);
    }
}

// How many words of a buffer are lent: all but as many as a field says, which are left out at its end.
fn lent(whole: usize, case: Case, n: usize) -> usize
    ensures { result ≤ whole }
{
    whole.saturating_sub(usize::from(case.number(n)))
}

// Types a manifest with buffers of the lengths that a case gives, and a word of one state set, where the case says so.
fn ask_lent(
    rt: &HostRuntime,
    case: Case,
    schema: &mut [u64],
    manifest: &mut [u64],
) -> io::Result<()> {
    set_word(case, b"schema", schema);
    set_word(case, b"manifest", manifest);
    let mut out = [BLANK; MANIFEST];
    let s = lent(schema.len(), case, 4);
    let m = lent(manifest.len(), case, 5);
    let o = lent(out.len(), case, 6);
    let reply = entity_manifest::to_typed(&schema[..s], &manifest[..m], &mut out[..o]);
    tell(rt, reply, &out)
}

// Types a manifest by its schema, and what is left by another schema.
fn ask_again(rt: &HostRuntime, case: Case, schema: &mut [u64], manifest: &[u64]) -> io::Result<()> {
    let mut typed = [0u64; MANIFEST];
    let reply = entity_manifest::to_typed(schema, manifest, &mut typed);
    if tell_unless(rt, "FIRST", reply)? && read_schema(rt, case, 4, schema)? {
        ask_typed(rt, schema, &typed)?;
    }
    Ok(())
}

// Says the union of two manifests.
fn tell_union(rt: &HostRuntime, left: &[u64], right: &[u64]) -> io::Result<()> {
    let mut out = [BLANK; MANIFEST];
    let reply = entity_manifest::union(Kind::Manifest, left, right, &mut out);
    tell(rt, reply, &out)
}

// Types a manifest, and unites it with an untyped one: on the left, or on the right.
fn ask_union(
    rt: &HostRuntime,
    case: Case,
    schema: &[u64],
    manifest: &[u64],
    on_the_left: bool,
) -> io::Result<()> {
    let mut typed = [0u64; MANIFEST];
    let reply = entity_manifest::to_typed(schema, manifest, &mut typed);
    let mut other = [0u64; MANIFEST];
    if tell_unless(rt, "FIRST", reply)? && read_manifest(rt, case, 4, &mut other)? {
        if on_the_left {
            tell_union(rt, &typed, &other)?;
        } else {
            tell_union(rt, &other, &typed)?;
        }
    }
    Ok(())
}

// What a case asks of its schema and its manifest.
fn ask(rt: &HostRuntime, case: Case, schema: &mut [u64], manifest: &mut [u64]) -> io::Result<()> {
    match case.field_bytes(0) {
        b"lent" => ask_lent(rt, case, schema, manifest),
        b"again" => ask_again(rt, case, schema, manifest),
        b"left" => ask_union(rt, case, schema, manifest, true),
        b"right" => ask_union(rt, case, schema, manifest, false),
        _ => ask_typed(rt, schema, manifest),
    }
}

// Says a case by its name, reads its schema and its manifest, and asks.
fn replay(rt: &HostRuntime, case: Case) -> io::Result<()> {
    cases::print_bytes(rt, case.field_bytes(1))?;
    print!(rt; ": ")?;
    let mut schema = [0u64; SCHEMA];
    let mut manifest = [0u64; MANIFEST];
    if read_schema(rt, case, 2, &mut schema)? && read_manifest(rt, case, 3, &mut manifest)? {
        ask(rt, case, &mut schema, &mut manifest)?;
    }
    println!(rt)
}

fn main(rt: HostRuntime) {
    for path in ["cases", "oracle"] {
        cases::replay_bytes(&rt, path, |case| replay(&rt, case));
    }
}
