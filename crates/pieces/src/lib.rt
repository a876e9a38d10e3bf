// The pieces of a text that was refused: its lines, their fields, and what bytes they have. It judges nothing, and serves messages alone.
#![tactic(auto)]

ghost use Rattle.std.specs.Prelude.{◌≤◌, length};

pub use text::scan;
use text::{LF, TAB, read_decimal};

// A piece of a text: the text, and where in it the piece begins and ends.
#[derive(Clone, Copy)]
pub struct Piece<'a> {
    text: &'a [u8],
    from: usize,
    to: usize,
    ghost inside: { (from ≤ to) × (to ≤ length text.now) },
}

impl<'a> Piece<'a> {
    pub fn bytes(self) -> &'a [u8] {
        &self.text[self.from..self.to]
    }

    // Whether it begins where the text has ended.
    pub fn is_behind(self) -> bool {
        self.from == self.text.len()
    }

    // Whether it goes on to the end of the text, so that no byte ends it.
    pub fn is_cut(self) -> bool {
        self.to == self.text.len()
    }

    // The number, from 1, of the line that begins with it.
    pub fn line_number(self) -> usize {
        self.text[..self.from]
            .iter()
            .filter(|byte| **byte == LF)
            .count()
            + 1
    }

    // The `A` line of a listing that it stands under, or the first line. Only `A` lines have the letter.
    pub fn entry(self) -> Piece<'a>
        ensures { (result.from ≤ result.to) × (result.to ≤ length self.entry.text.now) }
    {
        let from = self.text[..self.from]
            .iter()
            .rposition(|byte| *byte == b'A')
            .unwrap_or(0);
        piece_at(self.text, from, LF)
    }
}

// The piece from a place to the next byte `b`, or to the end.
fn piece_at(text: &[u8], from: usize, b: u8) -> Piece<'_>
    requires { from ≤ length text.now }
    ensures { (result.from ≤ result.to) × (result.to ≤ length text.now) }
{
    let to = scan(text, from, b);
    Piece { text, from, to }
}

// Piece k of a text that the byte `b` parts, from 0; nothing at the end, where there are fewer.
fn piece_of(text: &[u8], k: u64, b: u8) -> Piece<'_>
    ensures { (result.from ≤ result.to) × (result.to ≤ length text.now) }
{
    let mut from = 0;
    for _ in 0..k {
        let end = scan(text, from, b);
        if text.len() <= end {
            return piece_at(text, end, b);
        }
        from = end + 1;
    }
    piece_at(text, from, b)
}

// Line k of a text, from 0, without its LF; nothing at the end, where there are fewer.
pub fn line_of(text: &[u8], k: u64) -> Piece<'_>
    ensures { (result.from ≤ result.to) × (result.to ≤ length text.now) }
{
    piece_of(text, k, LF)
}

// The line of node k of a listing, from 0; nothing at the end, where there are fewer. Only `N` lines have the letter.
pub fn node_of(listing: &[u8], k: u64) -> Piece<'_>
    ensures { (result.from ≤ result.to) × (result.to ≤ length listing.now) }
{
    let before = piece_of(listing, k, b'N');
    piece_at(listing, before.to, LF)
}

// Field k of a line, from 0; nothing, where there are fewer.
pub fn field_of(line: &[u8], k: usize) -> &[u8]
    ensures { length result.now ≤ length line.now }
{
    line.split(|byte| *byte == TAB).nth(k).unwrap_or(b"")
}

// Whether a line has so many fields.
pub fn has_fields(line: &[u8], count: usize) -> bool {
    line.split(|byte| *byte == TAB).count() == count
}

// Whether a line has a byte from `low` to `high`.
pub fn has_byte(line: &[u8], low: u8, high: u8) -> bool {
    line.iter().any(|byte| low <= *byte && *byte <= high)
}

// Whether a tab of a line has no field in front of it, or none behind it.
pub fn has_gap(line: &[u8]) -> bool {
    line.split(|byte| *byte == TAB)
        .any(|field| field.is_empty())
}

// Whether field k of a line is a decimal.
pub fn is_decimal(line: &[u8], k: usize) -> bool {
    read_decimal(field_of(line, k)).is_some()
}

// The depth that a line of a listing has: 0 for an `A` line.
pub fn depth_of(line: &[u8]) -> u64 {
    match field_of(line, 0) {
        b"A" => 0,
        _ => read_decimal(field_of(line, 1)).unwrap_or(0),
    }
}
