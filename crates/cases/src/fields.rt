// A line of a data file: its fields, which tabs part, and what they stand for.
ghost use Rattle.std.specs.Prelude.{◌<◌, ◌≤◌, ◌^◌, length};
ghost use Rattle.std.specs.Iterator.{at_most};

use crate::said;
use rows::Kind;
use std::alloc::{AllocError, Global};
use std::{io, str};

// A case: a line of a data file.
#[derive(Clone, Copy)]
pub struct Case<'a> {
    pub line: &'a [u8],
}

impl<'a> Case<'a> {
    // The field with a number, from 0; it is empty where there is none.
    pub fn field_bytes(&self, n: usize) -> &'a [u8]
        ensures { length result.now ≤ length self.entry.now.line.now }
    {
        self.line
            .split(|byte| *byte == text::TAB)
            .nth(n)
            .unwrap_or(b"")
    }

    // The same as text; it is empty too where it is no UTF-8.
    pub fn field(&self, n: usize) -> &'a str
        ensures { length result.now ≤ length self.entry.now.line.now }
    {
        str::from_utf8(self.field_bytes(n)).unwrap_or("")
    }

    // Whether a field is a word.
    pub fn is(&self, n: usize, word: &[u8]) -> bool {
        self.field_bytes(n) == word
    }

    // The number that a field writes; 0 where it writes none.
    pub fn number(&self, n: usize) -> u16 {
        let number = text::read_decimal(self.field_bytes(n)).unwrap_or(0);
        u16::try_from(number).unwrap_or(0)
    }

    // The word that a field writes in hexadecimal digits.
    pub fn word(&self, n: usize) -> u64 {
        hex_number(self.field_bytes(n))
    }

    // The kind of state that a case asks for.
    pub fn kind(&self) -> Kind {
        if self.is(1, b"contribution") {
            Kind::Contribution
        } else {
            Kind::Manifest
        }
    }

    // The request type that a field and the two behind it name.
    pub fn triple(&self, n: usize) -> u64
        ensures { result < 2 ^ 48 }
    {
        let part = |k: usize| u64::from(self.number(n.saturating_add(k)));
        (part(0) * 0x1_0000 + part(1)) * 0x1_0000 + part(2)
    }

    // What a field stands for, in escapes: its first bytes, as many as there is room for.
    pub fn decoded(&self, alloc: Global, n: usize, room: usize) -> Result<Vec<u8>, AllocError> {
        Unescaped(self.field_bytes(n)).take(room).collect(alloc)
    }

    // Puts what a field stands for behind `out`, as much as there is room for.
    pub fn decode(&self, n: usize, out: &mut Vec<u8>, room: usize) -> Result<(), AllocError> {
        put_unescaped(self.field_bytes(n), out, room)
    }

    // Puts many lines behind `out`, as much as there is room for: each number below that of the field `count` stands in one, behind the field
    // `head` and a tab, and in front of the field `tail`.
    pub fn decode_many(
        &self,
        head: usize,
        count: usize,
        tail: usize,
        out: &mut Vec<u8>,
        room: usize,
    ) -> io::Result<()> {
        let front = self.field_bytes(head);
        let back = self.field_bytes(tail);
        for i in 0..self.number(count) {
            put_unescaped(front, out, room)?;
            said::say(out, b"\t", room)?;
            said::say_number(out, u64::from(i), room)?;
            put_unescaped(back, out, room)?;
        }
        Ok(())
    }
}

// Puts what an escaped text stands for behind `out`, as much as there is room for.
fn put_unescaped(escaped: &[u8], out: &mut Vec<u8>, room: usize) -> Result<(), AllocError> {
    out.extend(Unescaped(escaped).take(room.saturating_sub(out.len())))
}

// The number that hexadecimal digits write, the last 16 of them; what is no digit counts as 0.
pub fn hex_number(digits: &[u8]) -> u64 {
    digits.iter().fold(0, |value, digit| {
        value % 0x1000_0000_0000_0000 * 16 + u64::from(hex_digit(*digit))
    })
}

// What a digit of a hexadecimal number is worth; 0 where it is none.
fn hex_digit(b: u8) -> u8
    ensures { result < 16 }
{
    match b {
        b'0'..=b'9' => b - b'0',
        b'a'..=b'f' => b - b'a' + 10,
        _ => 0,
    }
}

// The byte that the letter after a backslash stands for; any other letter stands for itself.
fn letter(b: u8) -> u8 {
    match b {
        b't' => text::TAB,
        b'n' => text::LF,
        b'r' => 13,
        b'0' => 0,
        _ => b,
    }
}

// The bytes that an escaped text stands for: `\t`, `\n`, `\r`, `\0`, `\xHH`, or a byte itself.
#[derive(Drop)]
struct Unescaped<'a>(&'a [u8]);

impl Iterator for Unescaped<'_> {
    type Item = u8;

    ghost remaining = { λ s. at_most (length s.0.now) };

    fn next(&mut self) -> Option<u8> {
        let (byte, rest) = match self.0 {
            [] => return None,
            [b'\\', b'x', high, low, rest @ ..] => (hex_digit(*high) * 16 + hex_digit(*low), rest),
            [b'\\', named, rest @ ..] => (letter(*named), rest),
            [byte, rest @ ..] => (*byte, rest),
        };
        self.0 = rest;
        Some(byte)
    }
}
