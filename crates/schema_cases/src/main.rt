// Replays the vectors of data/cases: texts of schemas and name tables that are read, with the words that they give.
#![tactic(auto)]

use cases::{Case, Refused};
use schema::Schema;
use std::alloc::Global;
use std::{fmt, io};

// The longest text of a case, and the most words that an answer gives.
const TEXT: usize = 200_000;

const SHOWN: u64 = 64;

// The text of a case, in escapes, and many lines behind it where it has them.
fn text_of(alloc: Global, case: Case) -> io::Result<Vec<u8>> {
    let mut text = case.decoded(alloc, 1, TEXT)?;
    if case.is(0, b"many") || case.is(0, b"manynames") {
        case.decode_many(2, 3, 4, &mut text, TEXT)?;
    }
    Ok(text)
}

// The words of a state, shown as how many there are, and which, where they are few.
#[derive(Drop)]
struct Words<'a>(&'a [u64]);

impl fmt::Display for Words<'_> {
    fn fmt<W: fmt::Write>(&self, f: &mut fmt::Formatter<W>) -> fmt::Result {
        let Some((count, words)) = self.0.split_first() else {
            return Ok(());
        };
        write!(f, "{count} words:")?;
        if *count <= SHOWN {
            for word in words.iter().take(*count as usize) {
                write!(f, " {word}")?;
            }
        }
        Ok(())
    }
}

// Reads a schema, and checks the state that it gives.
fn ask_schema(rt: &HostRuntime, text: &[u8]) -> io::Result<()> {
    let mut state = [0u64; Schema::WORDS];
    match schema_text::read_schema(text, &mut state) {
        Err(refusal) => println!(rt; "{}", Refused(refusal)),
        Ok(()) if schema::is_lawful(&state) => println!(rt; "{}", Words(&state)),
        Ok(()) => println!(rt; "{} UNLAWFUL", Words(&state)),
    }
}

// Reads a name table.
fn ask_names(rt: &HostRuntime, text: &[u8]) -> io::Result<()> {
    let mut state = [0u64; name_table::WORDS];
    match name_table::read_names(text, &mut state) {
        Err(refusal) => println!(rt; "{}", Refused(refusal)),
        Ok(()) => println!(rt; "{}", Words(&state)),
    }
}

// Says a case, and what comes of it.
fn replay(rt: &HostRuntime, case: Case) -> io::Result<()> {
    cases::print_bytes(rt, case.line)?;
    print!(rt; " -> ")?;
    let text = text_of(rt.alloc(), case)?;
    match case.field_bytes(0) {
        b"names" | b"manynames" => ask_names(rt, &text),
        _ => ask_schema(rt, &text),
    }
}

fn main(rt: HostRuntime) {
    cases::replay_bytes(&rt, "cases", |case| replay(&rt, case))
}
