// Words and numbers said behind a text that has a room: what it has no room for is cut.
ghost use Rattle.std.specs.Prelude.{◌≤◌, vec_len, max};

use std::alloc::AllocError;

// The most digits of a number.
const DIGITS: usize = 20;

// Puts a word behind `out`, as much of it as there is room for.
pub fn say(out: &mut Vec<u8>, word: &[u8], room: usize) -> Result<(), AllocError>
    ensures { vec_len out.new ≤ max (vec_len out.old) room }
{
    let end = word.len().min(room.saturating_sub(out.len()));
    out.extend_from_slice(&word[..end])
}

// Puts the decimal of a number behind `out`, where there is room for the longest one.
pub fn say_number(out: &mut Vec<u8>, n: u64, room: usize) -> Result<(), AllocError>
    ensures { vec_len out.new ≤ max (vec_len out.old) room }
{
    if room.saturating_sub(out.len()) < DIGITS {
        return Ok(());
    }
    let mut digits = [0u8; DIGITS];
    let end = text::write_decimal(&mut digits, 0, n);
    out.extend_from_slice(&digits[..end])
}
