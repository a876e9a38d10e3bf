// Bytes on their way to standard output: they wait in a buffer, and are written whenever it is full.
ghost use Rattle.std.specs.Prelude.{◌≡◌, ◌≤◌};

use files::{Failure, To};

// The buffer's length.
const ROOM: usize = 8_192;

// Where bytes go, those that wait, and whether names are escaped for HTML.
#[derive(Clone, Copy)]
pub struct Sink {
    to: To,
    buffer: [u8; ROOM],
    waiting: usize,
    pub escapes: bool,
    ghost fits: { waiting ≤ 8192 },
}

impl Sink {
    pub fn new(to: To, escapes: bool) -> Sink
        ensures { result.waiting ≡ 0 }
    {
        Sink {
            to,
            buffer: [0; ROOM],
            waiting: 0,
            escapes,
        }
    }

    // Writes what waits; nothing waits behind that, also where it fails.
    pub fn flush(&mut self) -> Result<(), Failure>
        ensures { self.new.waiting ≡ 0 }
    {
        let waiting = self.waiting;
        self.waiting = 0;
        files::write(self.to, &self.buffer[..waiting])
    }

    // Puts a byte behind those that wait, which are written first where the buffer is full.
    fn put_byte(&mut self, byte: u8) -> Result<(), Failure> {
        if self.waiting == ROOM {
            self.flush()?;
        }
        self.buffer[self.waiting] = byte;
        self.waiting += 1;
        Ok(())
    }

    // Puts bytes behind those that wait.
    pub fn put(&mut self, bytes: &[u8]) -> Result<(), Failure> {
        for byte in bytes {
            self.put_byte(*byte)?;
        }
        Ok(())
    }

    // Puts a number in digits.
    pub fn put_number(&mut self, number: u64) -> Result<(), Failure> {
        let mut digits = [0u8; 20];
        let count = io::decimal(number, &mut digits);
        self.put(&digits[..count])
    }

    // Puts a byte of a name, escaped where HTML means something else by it.
    fn put_escaped(&mut self, byte: u8) -> Result<(), Failure> {
        match byte {
            b'<' => self.put(b"&lt;"),
            b'>' => self.put(b"&gt;"),
            b'&' => self.put(b"&amp;"),
            b'"' => self.put(b"&quot;"),
            b'\'' => self.put(b"&#39;"),
            _ => self.put_byte(byte),
        }
    }

    // Puts a name, escaped where that is asked for.
    pub fn put_name(&mut self, name: &[u8]) -> Result<(), Failure> {
        if !self.escapes {
            return self.put(name);
        }
        for byte in name {
            self.put_escaped(*byte)?;
        }
        Ok(())
    }
}
