// Rows to lines.
ghost use Rattle.std.specs.Prelude.{◌≡◌, true, false, cond, [], ◌∷◌, ◌++◌, ◌+◌, ◌≤◌, ◌<◌, length, get_or};
ghost use Rattle.rules.specs.Text.{decimal};
ghost use Rattle.rules.specs.Tries.{kind_of};
ghost use Rattle.rules.specs.Listing.{letters, listing, read};
ghost use Rattle.rows.specs.Words.{row_in, is_word};
ghost use Rattle.rows.specs.States.{all_words, rows_of};
ghost use Rattle.listing_lines.specs.Lines.{line_for};
ghost use Rattle.words.specs.Runs.{Wrote};

use rows::{RequestType, Row, StepParts};
use text::write_decimal;

// The letter of a step, by its kind.
fn letter(kind: u64) -> u8
    requires { kind ≤ 5 }
    ensures { result ≡ get_or letters kind 0 }
{
    b"fparce"[kind as usize]
}

// The digit of a mark.
fn digit(marked: bool) -> u8
    ensures { (result ∷ []) ≡ cond marked (49 ∷ []) (48 ∷ []) }
{
    if marked { b'1' } else { b'0' }
}

// Writes a field of one byte and the byte that ends it, and answers the place after them.
fn put_byte(out: &mut [u8], at: usize, byte: u8, end: u8) -> usize
    requires { at + 1 < length out.old }
    ensures { Wrote out.old at ((byte ∷ []) ++ (end ∷ [])) out.new result }
{
    out[at] = byte;
    out[at + 1] = end;
    at + 2
}

// Writes a field that is a decimal and the byte that ends it, and answers the place after them.
fn put_number(out: &mut [u8], at: usize, number: u64, end: u8) -> usize
    requires { at + length (decimal number) < length out.old }
    ensures { Wrote out.old at (decimal number ++ (end ∷ [])) out.new result }
{
    let next = write_decimal(out, at, number);
    out[next] = end;
    next + 1
}

// `A` principal-type action resource-type
fn write_entry(out: &mut [u8], at: usize, request: u64) -> usize
    requires { at + length (line_for (read 0 request false)) ≤ length out.old }
    ensures { Wrote out.old at (line_for (read 0 request false)) out.new result }
{
    let parts = RequestType::from(request);
    let principal = put_byte(out, at, b'A', text::TAB);
    let action = put_number(out, principal, parts.principal, text::TAB);
    let resource = put_number(out, action, parts.action, text::TAB);
    put_number(out, resource, parts.resource, text::LF)
}

// `N` depth step id mark
fn write_node(out: &mut [u8], at: usize, depth: u64, step: u64, marked: bool) -> usize
    requires { (0 < depth) × (kind_of step ≤ 5) × (at + length (line_for (read depth step marked)) ≤ length out.old) }
    ensures { Wrote out.old at (line_for (read depth step marked)) out.new result }
{
    let parts = StepParts::from(step);
    let number = put_byte(out, at, b'N', text::TAB);
    let kind = put_number(out, number, depth, text::TAB);
    let id = put_byte(out, kind, letter(parts.kind), text::TAB);
    let mark = put_number(out, id, parts.id, text::TAB);
    put_byte(out, mark, digit(marked), text::LF)
}

// Writes the line of a row, and answers the place after it.
fn write_row(out: &mut [u8], at: usize, row: Row) -> usize
    requires { (is_word row.word ≡ true) × (at + length (line_for (row_in row.word)) ≤ length out.old) }
    ensures { Wrote out.old at (line_for (row_in row.word)) out.new result }
{
    let depth = row.depth();
    let step = row.step();
    if depth == 0 {
        return write_entry(out, at, step);
    }
    write_node(out, at, depth, step, row.is_marked())
}

// Writes the lines of all rows from the start of `out` on, and answers the place after them.
pub fn write_rows(out: &mut [u8], words: &[u64]) -> usize
    requires { (all_words words.now ≡ true) × (length (listing (rows_of words.now)) ≤ length out.old) }
    ensures { Wrote out.old 0 (listing (rows_of words.now)) out.new result }
{
    let mut at = 0;
    for word in words {
        at = write_row(out, at, Row { word: *word });
    }
    at
}
