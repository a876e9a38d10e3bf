// Bytes to lines, fields and decimals, and decimals back to bytes. Any bytes get an answer.
#![tactic(auto)]

ghost use Rattle.std.specs.Prelude.{◌≡◌, ◌+◌, ◌≤◌, ◌<◌, length, drop, ◌∷◌};
ghost use Rattle.std.proofs.lemmas.List.Edits.{sets};
ghost use Rattle.rules.specs.Text.{decimal_of, decimal, parted, fields_of};
ghost use Rattle.rules.specs.Listing.{is_letter, place_in};
ghost use Rattle.rules.specs.Schema.{ascending};
ghost use Rattle.text.specs.Answers.{line_at, field_at, number_of, number_to, first_number, number_at, NamesRead};
ghost use Rattle.text.specs.Before.{before};

pub const LF: u8 = 10;

pub const TAB: u8 = 9;

// What begins at a place of a text: no line, a line that the LF at a place ends, or a last line without LF.
#[derive(Drop)]
pub enum Line {
    End,
    Whole(usize),
    Cut,
}

// The largest id, and the largest number that a field may hold.
pub const MOST: u64 = 65_535;

// The place of the first byte `b` of `s` from `at` on, or the length of `s`.
pub fn scan(s: &[u8], at: usize, b: u8) -> usize
    requires { at ≤ length s.now }
    ensures value { result ≡ at + length (before b (drop at s.now)) }
    ensures within { (at ≤ result) × (result ≤ length s.now) }
{
    for i in at..s.len() {
        if s[i] == b {
            return i;
        }
    }
    s.len()
}

// Whether a field is one letter.
pub fn is_letter(field: &[u8], letter: u8) -> bool
    ensures { result ≡ is_letter letter field.now }
{
    if field.len() == 1 {
        field[0] == letter
    } else {
        false
    }
}

// The place of a field's letter among some letters, if the field is one of them.
pub fn letter_place(letters: &[u8], field: &[u8]) -> Option<usize>
    ensures { number_of result ≡ place_in letters.now field.now }
{
    if field.len() != 1 {
        return None;
    }
    let byte = field[0];
    letters.iter().position(|letter| byte == *letter)
}

impl Line {
    pub fn at(text: &[u8], at: usize) -> Line
        ensures { result ≡ line_at text.now at }
    {
        if text.len() <= at {
            return Line::End;
        }
        let end = scan(text, at, LF);
        if end < text.len() {
            Line::Whole(end)
        } else {
            Line::Cut
        }
    }
}

// The place of the tab that ends the field at a place of a line, or none for the last field.
pub fn field_end(line: &[u8], at: usize) -> Option<usize>
    ensures { result ≡ field_at line.now at }
{
    if line.len() <= at {
        return None;
    }
    let end = scan(line, at, TAB);
    if end < line.len() { Some(end) } else { None }
}

// The number that a field writes as a decimal of at most MOST without extra zeros, if it is one.
pub fn read_decimal(field: &[u8]) -> Option<u64>
    ensures { number_of result ≡ decimal_of field.now }
{
    let n = field.len();
    if n == 0 {
        return None;
    }
    if 1 < n && field[0] == 48 {
        return None;
    }
    let (value, end) = digits(field, 0, TAB, 0)?;
    if end < n {
        return None;
    }
    Some(value)
}

// Writes the decimal of `n` into `out` from `at` on, and answers the place after it.
pub fn write_decimal(out: &mut [u8], at: usize, n: u64) -> usize
    requires { at + length (decimal n) ≤ length out.old }
    ensures { (result ≡ at + length (decimal n)) × (out.new ≡ sets out.old at (decimal n)) }
{
    if n < 10 {
        out[at] = 48 + n as u8;
        return at + 1;
    }
    let next = write_decimal(out, at, n / 10);
    out[next] = 48 + (n % 10) as u8;
    next + 1
}

// The number that the digits from a place to the next byte `b`, or to the end, write after the number `n` in front of them, and the
// place where they end; or that they write none.
fn digits(s: &[u8], at: usize, b: u8, n: u64) -> Option<(u64, usize)>
    requires { (n ≤ 65535) × (at ≤ length s.now) }
    ensures { result ≡ number_to b s.now n at }
{
    let mut value = n;
    for i in at..s.len() {
        let digit = s[i];
        if digit == b {
            return Some((value, i));
        }
        if digit < 48 || 57 < digit {
            return None;
        }
        value = value * 10 + (digit - 48) as u64;
        if MOST < value {
            return None;
        }
    }
    Some((value, s.len()))
}

// Reads the field from a place to the next byte `b`, which is no digit, in one pass, by the rules of `read_decimal`: the number, and the
// place of the byte that ends it.
pub fn number_at(s: &[u8], at: usize, b: u8) -> Option<(u64, usize)>
    requires { b < 48 }
    ensures { result ≡ number_at b s.now at }
{
    if s.len() <= at {
        return None;
    }
    let first = s[at];
    if first == 48 {
        return zero(s, at + 1, b);
    }
    if first < 48 || 57 < first {
        return None;
    }
    let (value, end) = digits(s, at + 1, b, (first - 48) as u64)?;
    if s.len() <= end {
        return None;
    }
    Some((value, end))
}

// What a field is that has a 0 in front of a place: 0 where it ends there.
fn zero(s: &[u8], at: usize, b: u8) -> Option<(u64, usize)>
    ensures { result ≡ first_number (λ field. decimal_of (48 ∷ field)) at (parted b (drop at s.now)) }
{
    if s.len() <= at {
        return None;
    }
    if s[at] == b {
        return Some((0, at));
    }
    None
}

// How many names a line's fields are, as decimals that ascend strictly, if they are. Reads them all; those for which `names` has room are
// kept at its end, the last in front of the others.
pub fn read_names(line: &[u8], names: &mut [u64]) -> Option<usize>
    ensures { NamesRead (ascending 0 (fields_of line.now)) result names.new }
{
    let mut from = 0;
    let mut least: u64 = 0;
    let mut count = 0;
    while from < line.len() {
        let end = scan(line, from, TAB);
        let name = read_decimal(&line[from..end])?;
        if name < least {
            return None;
        }
        if count < names.len() {
            let slot = names.len() - 1 - count;
            names[slot] = name;
        }
        count += 1;
        if end == line.len() {
            return Some(count);
        }
        least = name + 1;
        from = end + 1;
    }
    None
}
