// Replays the vectors of data/cases: each line has a kind, an input in escapes, and the answer that is expected.
#![tactic(auto)]

use cases::{Case, say, say_number};
use std::alloc::AllocError;
use std::io;
use text::Line;

// The longest input and the longest answer of a case.
const ROOM: usize = 256;

// The number that the input writes, or `bad`.
fn read_decimal(input: &[u8], out: &mut Vec<u8>) -> Result<(), AllocError> {
    match text::read_decimal(input) {
        Some(n) => say_number(out, n, ROOM),
        None => say(out, b"bad", ROOM),
    }
}

// The number that a tab ends and the place of that tab, or `bad`.
fn read_number(input: &[u8], out: &mut Vec<u8>) -> Result<(), AllocError> {
    match text::number_at(input, 0, text::TAB) {
        Some((n, end)) => {
            say_number(out, n, ROOM)?;
            say(out, b" ", ROOM)?;
            say_number(out, end as u64, ROOM)
        }
        None => say(out, b"bad", ROOM),
    }
}

// The length of each field of the input.
fn read_fields(input: &[u8], out: &mut Vec<u8>) -> Result<(), AllocError> {
    let mut at = 0;
    while let Some(end) = text::field_end(input, at) {
        say_number(out, (end - at) as u64, ROOM)?;
        say(out, b" ", ROOM)?;
        at = end + 1;
    }
    say_number(out, (input.len() - at) as u64, ROOM)
}

// The length of each line of the input, and then `end`, or `cut` where the last has no LF.
fn read_lines(input: &[u8], out: &mut Vec<u8>) -> Result<(), AllocError> {
    let mut at = 0;
    while let Line::Whole(end) = Line::at(input, at) {
        say_number(out, (end - at) as u64, ROOM)?;
        say(out, b" ", ROOM)?;
        at = end + 1;
    }
    match Line::at(input, at) {
        Line::Cut => say(out, b"cut", ROOM),
        _ => say(out, b"end", ROOM),
    }
}

// What the crate answers to a case, by the first letter of its line: decimal, number, write, fields or lines.
fn answer(case: Case, input: &[u8], out: &mut Vec<u8>) -> Result<(), AllocError> {
    match case.line {
        [b'd', ..] => read_decimal(input, out),
        [b'n', ..] => read_number(input, out),
        [b'w', ..] => say_number(out, cases::hex_number(input), ROOM),
        [b'f', ..] => read_fields(input, out),
        [b'l', ..] => read_lines(input, out),
        _ => Ok(()),
    }
}

// A case as it stands in its line, up to its input.
fn told(case: Case<'_>) -> &[u8] {
    let end = case
        .field_bytes(0)
        .len()
        .saturating_add(1)
        .saturating_add(case.field_bytes(1).len());
    &case.line[..end.min(case.line.len())]
}

// Says a case, what came of it, and whether that is what is expected.
fn replay(rt: &HostRuntime, case: Case) -> io::Result<()> {
    let input = case.decoded(rt.alloc(), 1, ROOM)?;
    let mut out = Vec::new(rt.alloc());
    answer(case, &input, &mut out)?;
    cases::print_bytes(rt, told(case))?;
    cases::print_bytes(rt, b" -> ")?;
    cases::print_bytes(rt, &out)?;
    let expected = case.field_bytes(2);
    if out.as_slice() != expected {
        cases::print_bytes(rt, b" WRONG, expected ")?;
        cases::print_bytes(rt, expected)?;
    }
    cases::print_bytes(rt, b"\n")
}

fn main(rt: HostRuntime) {
    cases::replay_bytes(&rt, "cases", |case| replay(&rt, case))
}
