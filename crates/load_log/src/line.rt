// A line, put together in bytes and then written.
ghost use Rattle.std.specs.Prelude.{◌≤◌};

use files::{Failure, To};
use values::ValueRow;

// More bytes than the longest line has: a letter, an entity and 256 ids.
const ROOM: usize = 2_048;

// The bytes of a line so far.
#[derive(Drop)]
struct Line {
    bytes: [u8; ROOM],
    len: usize,
    ghost within: { len ≤ 2048 },
}

impl Line {
    // A line that begins with a letter.
    fn new(letter: u8) -> Line {
        Line {
            bytes: [letter; ROOM],
            len: 1,
        }
    }

    // Puts more bytes behind, as much as there is room.
    fn put_bytes(&mut self, more: &[u8]) {
        let count = more.len().min(ROOM - self.len);
        let end = self.len + count;
        self.bytes[self.len..end].copy_from_slice(&more[..count]);
        self.len = end;
    }

    // Puts a tab and a number behind.
    fn put_number(&mut self, number: u64) {
        let mut digits = [0u8; 20];
        let count = io::decimal(number, &mut digits);
        self.put_bytes(b"\t");
        self.put_bytes(&digits[..count]);
    }

    // Puts numbers behind.
    fn put_numbers(&mut self, numbers: &[u64]) {
        for number in numbers {
            self.put_number(*number);
        }
    }

    // Ends the line and writes it.
    fn write(mut self, to: To) -> Result<(), Failure> {
        self.put_bytes(b"\n");
        files::write(to, &self.bytes[..self.len])
    }
}

// Writes a line of a letter and numbers.
pub fn write_line(to: To, letter: u8, numbers: &[u64]) -> Result<(), Failure> {
    let mut line = Line::new(letter);
    line.put_numbers(numbers);
    line.write(to)
}

// The same where the first number does not stand with the others.
pub fn write_headed(to: To, letter: u8, first: u64, numbers: &[u64]) -> Result<(), Failure> {
    let mut line = Line::new(letter);
    line.put_number(first);
    line.put_numbers(numbers);
    line.write(to)
}

// Writes a row of a value.
pub fn write_value_row(to: To, row: ValueRow) -> Result<(), Failure> {
    let mut line = Line::new(b'V');
    line.put_numbers(&[row.depth(), row.key()]);
    line.put_bytes(&[b'\t', row.letter()]);
    line.put_number(row.number());
    line.write(to)
}
