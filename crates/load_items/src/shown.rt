// Words of a load shown: rows asked, ancestors requests, slices and values.
use answers::Head;
use std::fmt;
use values::ValueRow;

// The most words that are shown.
const SHOWN: usize = 64;

// What a call hands out.
#[derive(Clone, Copy, PartialEq, Eq, Debug)]
pub enum Handed {
    Rows,
    Requests,
    Slice,
}

// The first words of what a call hands out: so many rows or heads, and what belongs to them.
#[derive(Drop)]
pub struct Shown<'a> {
    pub handed: Handed,
    pub count: u64,
    pub words: &'a [u64],
}

impl fmt::Display for Shown<'_> {
    fn fmt<W: fmt::Write>(&self, f: &mut fmt::Formatter<W>) -> fmt::Result {
        let words = &self.words[..self.words.len().min(SHOWN)];
        let (heads, behind) = words.split_at(words.len().min(self.count as usize));
        match self.handed {
            Handed::Rows => show_rows(f, heads),
            Handed::Requests => show_requests(f, heads, behind),
            Handed::Slice => show_slice(f, self.count, words),
        }
    }
}

// Rows asked: each with its entity and its node.
fn show_rows<W: fmt::Write>(f: &mut fmt::Formatter<W>, rows: &[u64]) -> fmt::Result {
    for row in rows {
        write!(f, " {}@{}", row % 0x1_0000, row / 0x1_0000)?;
    }
    Ok(())
}

// Requests for ancestors: each head with its entity and how many ids it asks for; behind them all the ids.
fn show_requests<W: fmt::Write>(
    f: &mut fmt::Formatter<W>,
    heads: &[u64],
    ids: &[u64],
) -> fmt::Result {
    let mut asked: u64 = 0;
    for head in heads {
        let count = head / 0x1_0000;
        write!(f, " {}:{count}", head % 0x1_0000)?;
        asked = asked.wrapping_add(count);
    }
    for id in ids.iter().take(asked as usize) {
        write!(f, " {id}")?;
    }
    Ok(())
}

// A slice: each head, then its parents and its rows.
fn show_slice<W: fmt::Write>(f: &mut fmt::Formatter<W>, heads: u64, words: &[u64]) -> fmt::Result {
    let mut words = words.iter();
    for _ in 0..heads {
        let Some(word) = words.next() else {
            return Ok(());
        };
        let head = Head::from(*word);
        write!(f, " #{}", head.flag)?;
        for id in words.by_ref().take(head.parents) {
            write!(f, " {id}")?;
        }
        for row in words.by_ref().take(head.rows) {
            show_row(f, *row)?;
        }
    }
    Ok(())
}

// The row of a value.
fn show_row<W: fmt::Write>(f: &mut fmt::Formatter<W>, word: u64) -> fmt::Result {
    let row = ValueRow { word };
    let letter = char::from(row.letter());
    write!(
        f,
        " {}.{}.{letter}.{}",
        row.depth(),
        row.key(),
        row.number()
    )
}

// The first rows of a value.
#[derive(Drop)]
pub struct Values<'a>(pub &'a [u64]);

impl fmt::Display for Values<'_> {
    fn fmt<W: fmt::Write>(&self, f: &mut fmt::Formatter<W>) -> fmt::Result {
        for row in self.0.iter().take(SHOWN) {
            show_row(f, *row)?;
        }
        Ok(())
    }
}
