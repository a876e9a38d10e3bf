// The words of a command line and the files that they name: each is read once, and what cannot be read or written is said with its cause.
#![tactic(auto)]

ghost use Rattle.std.specs.Prelude.{◌≤◌, length, IfOk};

use std::env::{Env, FillError};
use std::fmt::Display;
use std::io::{Error, ErrorKind, Print, Read};
use std::os::fd::AsFd;
use std::rt::{Stderr, Stdout};
use std::{fs, io, str};

// Why a job is not done, once what there is to say of that is said: a text is refused, or the command line, a file or standard output cannot
// be used.
#[derive(Clone, Copy, PartialEq, Eq, Debug)]
pub enum Failure {
    Refused,
    Cannot,
}

// The status with which the program ends.
pub fn status_of(ended: Result<(), Failure>) -> u64 {
    match ended {
        Ok(()) => 0,
        Err(Failure::Refused) => 1,
        Err(Failure::Cannot) => 2,
    }
}

// The longest text that is taken.
const TEXT: usize = 65_536;

// A buffer for a text has one more byte, so that a longer text shows.
pub const ROOM: usize = 65_537;

// A name of so many bytes, or more, is too long for the system.
const LONG: usize = 4_096;

// The system's errors for which `ErrorKind` has no name, as Linux has them.
const EIO: i32 = 5;

const EBADF: i32 = 9;

const EILSEQ: i32 = 84;

// Standard output or standard error.
#[derive(Clone, Copy)]
pub enum Stream {
    Out(Stdout),
    Err(Stderr),
}

impl Print for Stream {
    fn print<D: Display + Drop>(&self, value: D) -> io::Result<()> {
        match self {
            Stream::Out(out) => out.print(value),
            Stream::Err(err) => err.print(value),
        }
    }

    fn println<D: Display + Drop>(&self, value: D) -> io::Result<()> {
        match self {
            Stream::Out(out) => out.println(value),
            Stream::Err(err) => err.println(value),
        }
    }

    fn write_all(&self, bytes: &[u8]) -> io::Result<()> {
        match self {
            Stream::Out(out) => out.write_all(bytes),
            Stream::Err(err) => err.write_all(bytes),
        }
    }
}

// The system, where results go, and where messages go.
#[derive(Clone, Copy)]
pub struct To {
    pub rt: HostRuntime,
    pub out: Stream,
    pub err: Stream,
}

// Writes a message's next words; what comes of that is nobody's to hear.
pub fn say(fd: Stream, words: &[u8]) {
    let _ = fd.write_all(words);
}

pub fn say_number(fd: Stream, number: u64) {
    let _ = fd.print(number);
}

// A byte as two digits.
fn say_hex(fd: Stream, byte: u8) {
    let _ = print!(fd; "\\x{byte:02x}");
}

// A byte that a name or a line has: escaped, where a terminal would do something else than show it.
fn say_byte(fd: Stream, byte: u8) {
    match byte {
        b'\t' => say(fd, b"\\t"),
        b'\n' => say(fd, b"\\n"),
        b'\r' => say(fd, b"\\r"),
        b'\\' => say(fd, b"\\\\"),
        0..=31 | 127 => say_hex(fd, byte),
        _ => say(fd, &[byte]),
    }
}

// All bytes of a name. Those over 127 are left as they are, since a name may be UTF-8.
pub fn say_name(fd: Stream, name: &[u8]) {
    for byte in name {
        say_byte(fd, *byte);
    }
}

// All bytes of a part of a line. No form has those over 127, so that they are escaped.
pub fn say_line(fd: Stream, line: &[u8]) {
    for byte in line {
        if byte.is_ascii() {
            say_byte(fd, *byte);
        } else {
            say_hex(fd, *byte);
        }
    }
}

// A word of a command line, as much of it as there is room for: one that fills the room is too long for a name.
#[derive(Drop)]
pub struct Word {
    room: [u8; LONG],
    length: usize,
    ghost fits: { length ≤ 4096 },
}

impl Word {
    pub fn bytes(&self) -> &[u8] {
        &self.room[..self.length]
    }
}

// Where the words of a command line stand: they are the program's own arguments, or parted by a space in a line that begins with word 1.
#[derive(Clone, Copy)]
pub enum Words<'a> {
    Arguments,
    Line(&'a [u8]),
}

// The program's argument i.
fn argument(rt: HostRuntime, i: usize) -> Word {
    let mut room = [0u8; LONG];
    let length = match rt.arg(i, &mut room) {
        Ok(n) => n,
        Err(FillError::TooLong) => LONG,
        Err(FillError::NotPresent) => 0,
    };
    Word { room, length }
}

// Word i of a line, if there is one.
fn part_of(line: &[u8], i: usize) -> Option<&[u8]> {
    line.split(|byte| *byte == b' ').nth(i.checked_sub(1)?)
}

// The same in room of its own, and an empty word where there is none.
fn part(line: &[u8], i: usize) -> Word {
    let part = part_of(line, i).unwrap_or(&[]);
    let length = part.len().min(LONG);
    let mut room = [0u8; LONG];
    room[..length].copy_from_slice(&part[..length]);
    Word { room, length }
}

// Whether the program has an argument i.
fn has_argument(rt: HostRuntime, i: usize) -> bool {
    let mut room = [0u8; 1];
    !matches!(rt.arg(i, &mut room), Err(FillError::NotPresent))
}

// How many arguments the program has, its own name among them.
fn count_arguments(rt: HostRuntime) -> usize {
    (0..usize::MAX)
        .find(|i| !has_argument(rt, *i))
        .unwrap_or(usize::MAX)
}

// How many words a line has, with the program's own name in front of them.
fn count_parts(line: &[u8]) -> usize {
    line.iter().filter(|byte| **byte == b' ').count() + 2
}

// Why a file cannot be read or written, where `ErrorKind` has no name for it.
fn say_other_cause(fd: Stream, error: Error) {
    match error.raw_os_error() {
        Some(EBADF) => say(fd, b"it is not open"),
        Some(EILSEQ) => say(fd, b"its name is not UTF-8"),
        Some(EIO) => say(fd, b"the device failed"),
        _ => say(fd, b"the system refused"),
    }
}

// Why a file cannot be read or written.
fn say_cause(fd: Stream, error: Error) {
    match error.kind() {
        ErrorKind::NotFound => say(fd, b"there is no such file"),
        ErrorKind::IsADirectory => say(fd, b"it is a directory"),
        ErrorKind::NotADirectory => say(fd, b"a part of its name is no directory"),
        ErrorKind::PermissionDenied => say(fd, b"not allowed"),
        ErrorKind::InvalidFilename => say(fd, b"its name is too long"),
        ErrorKind::FilesystemLoop => say(fd, b"too many links"),
        ErrorKind::StorageFull => say(fd, b"no space is left, it is full"),
        ErrorKind::FileTooLarge => say(fd, b"it would be too large"),
        ErrorKind::BrokenPipe => say(fd, b"nobody reads it"),
        _ => say_other_cause(fd, error),
    }
}

// `terbagyl: cannot: read FILE: cause`
fn say_unread(fd: Stream, name: &[u8], error: Error) {
    say(fd, b"terbagyl: cannot: read ");
    say_name(fd, name);
    say(fd, b": ");
    say_cause(fd, error);
    say(fd, b"\n");
}

// `terbagyl: cannot: write standard output: cause`
fn say_unwritten(fd: Stream, error: Error) {
    say(fd, b"terbagyl: cannot: write standard output: ");
    say_cause(fd, error);
    say(fd, b"\n");
}

// `terbagyl: FILE: refused 15 at 0: over 65,536 bytes`
fn say_long(fd: Stream, name: &[u8]) {
    say(fd, b"terbagyl: ");
    say_name(fd, name);
    say(fd, b": refused 15 at 0: over 65,536 bytes\n");
}

// Reads to the end of a file, or until `text` is full; answers how many bytes were read.
fn read_all<R: Read>(from: &mut R, text: &mut [u8]) -> io::Result<usize>
    ensures { IfOk result (λ n. n ≤ length text.new) }
{
    let mut n = 0;
    while n < text.len() {
        let more = from.read(&mut text[n..])?;
        if more == 0 {
            return Ok(n);
        }
        n += more;
    }
    Ok(n)
}

// Opens a file and reads it, once.
fn read_path(rt: HostRuntime, path: &str, text: &mut [u8]) -> io::Result<usize>
    ensures { IfOk result (λ n. n ≤ length text.new) }
{
    let mut file = fs::open(&rt, path)?;
    read_all(&mut file, text)
}

// Reads a file, once. Standard input is open: to open it again by its name would fail where it is a socket or another user's.
fn read_file(rt: HostRuntime, name: &[u8], text: &mut [u8]) -> io::Result<usize>
    ensures { IfOk result (λ n. n ≤ length text.new) }
{
    if is_input(name) {
        return read_all(&mut rt.stdin(), text);
    }
    if LONG <= name.len() {
        return Err(Error::from(ErrorKind::InvalidFilename));
    }
    match str::from_utf8(name) {
        Ok(path) => read_path(rt, path, text),
        Err(_) => Err(Error::from_raw_os_error(EILSEQ)),
    }
}

// Whether a name stands for standard input.
fn is_input(name: &[u8]) -> bool {
    name == b"/dev/stdin".as_slice()
}

// A command line: its words, how many they are with the program's own name in front of them, and what they are run with.
#[derive(Clone, Copy)]
pub struct CommandLine<'a> {
    pub to: To,
    words: Words<'a>,
    pub count: usize,
}

impl<'a> CommandLine<'a> {
    pub fn new(to: To, words: Words<'a>) -> CommandLine<'a> {
        let count = match words {
            Words::Arguments => count_arguments(to.rt),
            Words::Line(line) => count_parts(line),
        };
        CommandLine { to, words, count }
    }

    // Word i.
    pub fn word(self, i: usize) -> Word {
        match self.words {
            Words::Arguments => argument(self.to.rt, i),
            Words::Line(line) => part(line, i),
        }
    }

    // Whether two words or more stand for standard input, which gives its bytes once.
    pub fn has_input_twice(self) -> bool {
        let mut named = (2..self.count).filter(|i| is_input(self.word(*i).bytes()));
        named.nth(1).is_some()
    }

    // The text of the file that word i names, read into `room`, which is a byte longer than the longest text; or says why not.
    pub fn load<'r>(self, i: usize, room: &'r mut [u8]) -> Result<&'r [u8], Failure>
        ensures { IfOk result (λ text. length text.now ≤ length room.old) }
    {
        let name = self.word(i);
        match read_file(self.to.rt, name.bytes(), room) {
            Ok(n) if n <= TEXT => Ok(&room[..n]),
            Ok(_) => {
                say_long(self.to.err, name.bytes());
                Err(Failure::Refused)
            }
            Err(error) => {
                say_unread(self.to.err, name.bytes(), error);
                Err(Failure::Cannot)
            }
        }
    }

    // Reads the file that word i names for its length alone.
    fn pass(self, i: usize) -> Result<(), Failure> {
        let mut room = [0u8; ROOM];
        self.load(i, &mut room)?;
        Ok(())
    }

    // Reads the files behind word i for their lengths alone, and says the first that is too long or cannot be read: that comes before any
    // refusal of what word i names.
    pub fn pass_behind(self, i: usize) -> Result<(), Failure> {
        for next in i.saturating_add(1)..self.count {
            self.pass(next)?;
        }
        Ok(())
    }
}

// Says that a result cannot be written.
fn unwritten(err: Stream, error: Error) -> Failure {
    say_unwritten(err, error);
    Failure::Cannot
}

// Writes a result, or says why not.
pub fn write(to: To, bytes: &[u8]) -> Result<(), Failure> {
    to.out
        .write_all(bytes)
        .map_err(|error| unwritten(to.err, error))
}

// Sees that a stream is open.
fn check_open(stream: Stream) -> io::Result<()> {
    let copied = match stream {
        Stream::Out(out) => out.as_fd().try_clone_to_owned(),
        Stream::Err(err) => err.as_fd().try_clone_to_owned(),
    };
    match copied {
        Err(error) if error.raw_os_error() == Some(EBADF) => Err(error),
        _ => Ok(()),
    }
}

// Whether a name, which is that of a stream, stands for a file of a disk.
fn is_file(rt: HostRuntime, name: &str) -> bool {
    fs::metadata(&rt, name).is_ok_and(|found| found.is_file())
}

// Whether an error says that a file has not kept what was written to it.
fn is_loss(error: Error) -> bool {
    match error.kind() {
        ErrorKind::StorageFull | ErrorKind::QuotaExceeded | ErrorKind::FileTooLarge => true,
        _ => error.raw_os_error() == Some(EIO),
    }
}

// Waits until a file has what was written to it. One that cannot be opened a second time is let be.
fn sync(rt: HostRuntime, name: &str) -> io::Result<()> {
    let Ok(file) = fs::open(&rt, name) else {
        return Ok(());
    };
    match file.sync_data() {
        Err(error) if is_loss(error) => Err(error),
        _ => Ok(()),
    }
}

// Sees that a stream is open, and that it has kept what was written to it: some file systems say only then that they are full. One that is no
// file has nothing to keep.
fn settle(rt: HostRuntime, stream: Stream) -> io::Result<()> {
    check_open(stream)?;
    let name = match stream {
        Stream::Out(_) => "/dev/stdout",
        Stream::Err(_) => "/dev/stderr",
    };
    if is_file(rt, name) {
        return sync(rt, name);
    }
    Ok(())
}

// Sees that standard output is open and has kept the results, or says why not.
pub fn finish(to: To) -> Result<(), Failure> {
    settle(to.rt, to.out).map_err(|error| unwritten(to.err, error))
}
