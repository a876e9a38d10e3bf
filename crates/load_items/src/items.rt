// Items, which spaces part, and the words that they stand for.
ghost use Rattle.std.specs.Prelude.{◌<◌, ◌≤◌, IfOk, vec_len};

use answers::Head;
use rows::Row;
use std::alloc::{AllocError, Global};
use values::ValueRow;

// What a digit is worth, or a letter for a value's kind or a step's.
fn digit(b: u8) -> u64
    ensures { result ≤ 9 }
{
    match b {
        b'0'..=b'9' => u64::from(b - b'0'),
        b'x' | b'P' => 1,
        b'e' | b'A' => 2,
        b's' | b'R' => 3,
        b'r' | b'C' => 4,
        b'E' => 5,
        _ => 0,
    }
}

// The number that digits write, up to a dot or the end.
pub fn number_of(digits: &[u8]) -> u64 {
    digits.iter().take_while(|b| **b != b'.').fold(
        0,
        |value, b| value % 0x1000_0000_0000_0000 * 10 + digit(*b),
    )
}

// An item of a data file, in parts between dots.
#[derive(Clone, Copy)]
struct Item<'a>(&'a [u8]);

impl Item<'_> {
    // The part with a number, from 0; one that is not there is 0.
    fn part(self, n: usize) -> u64 {
        number_of(self.0.split(|b| *b == b'.').nth(n).unwrap_or(&[]))
    }

    // A request type.
    fn request_type(self) -> u64
        ensures { result < 4503599627370496 }
    {
        let principal = self.part(1) % 0x10_0000;
        let action = self.part(2) % 0x1_0000;
        let resource = self.part(3) % 0x1_0000;
        (principal * 0x1_0000 + action) * 0x1_0000 + resource
    }

    // The row of a node.
    fn node(self, is_marked: bool) -> Row {
        let depth = self.part(1) % 32;
        let kind = self.part(2) % 6;
        let id = self.part(3) % 0x1_0000;
        Row::node(depth, kind * 0x1_0000 + id, is_marked)
    }

    // The head of an answer.
    fn head(self) -> u64 {
        let parents = self.part(1) % 0x1_0000;
        let rows = self.part(2) % 0x1_0000_0000;
        let head = Head {
            flag: 1,
            parents: parents as usize,
            rows: rows as usize,
        };
        head.word()
    }

    // The row of a value.
    fn value(self) -> ValueRow {
        let depth = self.part(0) % 0x1000_0000;
        let key = self.part(1) % 0x1_0000;
        let kind = self.part(2) % 8;
        let number = self.part(3) % 0x1_0000;
        ValueRow::of(depth, key, kind, number)
    }

    // The word of an item, by its first byte: a number, a head, a request type, an entry, a node without or with a mark, or the row of a value.
    fn word(self) -> u64 {
        match self.0 {
            [b'i', ..] => self.part(1),
            [b'h', ..] => self.head(),
            [b't', ..] => self.request_type(),
            [b'q', ..] => self.request_type() * 64,
            [b'N', ..] => self.node(false).word,
            [b'M', ..] => self.node(true).word,
            _ => self.value().word,
        }
    }

    // Puts the item behind `words`, and as many more of it as it says, each so much above the one before, until there are `room` words.
    fn put(self, words: &mut Vec<u64>, room: usize) -> Result<(), AllocError>
        requires { vec_len words.old ≤ room }
        ensures { vec_len words.new ≤ room }
    {
        let by = self.part(5) % 0x4000_0000_0000_0000;
        let mut word = self.word();
        for _ in 0..=self.part(4) % 0x1_0000 {
            if words.len() == room {
                return Ok(());
            }
            words.push(word)?;
            word = word % 0x4000_0000_0000_0000 + by;
        }
        Ok(())
    }
}

// The words that the items of a text make, the first `room` of them. An empty item is none.
pub fn words_of(alloc: Global, items: &[u8], room: usize) -> Result<Vec<u64>, AllocError>
    ensures { IfOk result (λ words. vec_len words ≤ room) }
{
    let mut words = Vec::new(alloc);
    for item in items.split(|b| *b == b' ').filter(|item| !item.is_empty()) {
        Item(item).put(&mut words, room)?;
    }
    Ok(words)
}
