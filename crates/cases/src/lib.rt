// What the programs that replay vectors share: the cases of a data file, their fields and escapes, what is said within a room, and a refusal in
// print.
#![tactic(auto)]

ghost use Rattle.std.specs.Prelude.{◌≤◌, length};

mod fields;
mod said;

pub use crate::fields::{Case, hex_number};
pub use crate::said::{say, say_number};
use std::io::{Read, Write};
use std::{fmt, fs, io};
use words::Refusal;

// As many bytes of a data file are read.
const ROOM: usize = 65_536;

// Reads until `buffer` is full, the file ends or a read fails, and answers how many bytes that is.
fn read_full<R: Read>(from: &mut R, buffer: &mut [u8]) -> usize
    ensures { result ≤ length buffer.new }
{
    let mut n = 0;
    while n < buffer.len() {
        match from.read(&mut buffer[n..]) {
            Ok(0) | Err(_) => return n,
            Ok(more) => n += more,
        }
    }
    n
}

// Reads a data file into `buffer`, as much as there is room, and answers how many bytes that is; none where it cannot be opened, which is said.
fn read_file(rt: &HostRuntime, path: &str, buffer: &mut [u8]) -> usize
    ensures { result ≤ length buffer.new }
{
    match fs::open(rt, path) {
        Ok(mut file) => read_full(&mut file, buffer),
        Err(error) => {
            let _ = eprintln!(rt; "{path}: {error}");
            0
        }
    }
}

// Calls `each` at the cases of a data file, in order: its lines but those that are empty, begin with `#` or have no LF. What fails in one case
// is nobody's to hear, and the next one follows.
pub fn replay_bytes<F: FnMut(Case) -> io::Result<()>>(rt: &HostRuntime, path: &str, mut each: F)
    requires { F.IsAlwaysCallable each }
{
    let mut buffer = [0u8; ROOM];
    let n = read_file(rt, path, &mut buffer);
    for line in buffer[..n].split_inclusive(|byte| *byte == text::LF) {
        match line {
            [text::LF] | [b'#', ..] => {}
            [line @ .., text::LF] => {
                let _ = each(Case { line });
            }
            _ => {}
        }
    }
}

// The same of a data file that is text, however long it is, its last line also without LF; what fails ends it and is answered.
pub fn replay<F: FnMut(Case) -> io::Result<()>>(
    rt: &HostRuntime,
    path: &str,
    mut each: F,
) -> io::Result<()>
    requires { F.IsAlwaysCallable each }
{
    let text = fs::read_to_string(rt, path)?;
    for line in text.lines() {
        if !line.is_empty() && !line.starts_with('#') {
            let line = line.as_bytes();
            each(Case { line })?;
        }
    }
    Ok(())
}

// A refusal, as the vectors have it.
#[derive(Clone, Copy, PartialEq, Eq, Debug)]
pub struct Refused(pub Refusal);

impl fmt::Display for Refused {
    fn fmt<W: fmt::Write>(&self, f: &mut fmt::Formatter<W>) -> fmt::Result {
        write!(f, "refused {} at {}", self.0.number, self.0.place)
    }
}

// Whether an answer is that of the published Rust, in words.
pub fn as_rust(is_same: bool) -> &'static str {
    if is_same {
        "as the Rust"
    } else {
        "NOT AS THE RUST"
    }
}

// Prints bytes.
pub fn print_bytes(rt: &HostRuntime, bytes: &[u8]) -> io::Result<()> {
    io::writer(rt).write_all(bytes)
}
