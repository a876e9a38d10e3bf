// A line of a step text as a step.
#![tactic(auto)]

ghost use Rattle.std.specs.Prelude.{◌≡◌, ◌≤◌, false, length};
ghost use Rattle.rules.specs.Text.{bytes, fields_of};
ghost use Rattle.rules.specs.Steps.{is_text, rec_of, bare_step, step_with, step_from};
ghost use Rattle.step_lines.specs.Lines.{line_read, names_read, Bare, var_step};

use text::{field_end, letter_place, read_decimal, read_names};

// A step; the names of `rec` are kept beside it, so many of them.
#[derive(Clone, Copy, PartialEq, Eq, Debug)]
pub enum Step {
    Root(u64),
    None,
    Attr(u64),
    Union,
    Drop,
    Full(u64),
    In,
    Set,
    Rec(usize),
}

impl Step {
    // A record literal has at most so many fields.
    pub const NAMES: usize = 32;
}

// A step of one word.
#[tactic(auto, using(crate::specs::LineLaws::same_bytes, crate::specs::LineLaws::no_name))]
fn bare_step(word: &[u8]) -> Option<Step>
    ensures { Bare result (bare_step word.now) }
{
    if word == b"none".as_slice() {
        return Some(Step::None);
    }
    if word == b"union".as_slice() {
        return Some(Step::Union);
    }
    if word == b"drop".as_slice() {
        return Some(Step::Drop);
    }
    if word == b"in".as_slice() {
        return Some(Step::In);
    }
    if word == b"set".as_slice() {
        return Some(Step::Set);
    }
    if word == b"rec".as_slice() {
        return Some(Step::Rec(0));
    }
    None
}

// The root that a variable's letter names: p, a, r, c.
fn var_step(field: &[u8]) -> Option<Step>
    ensures { Bare result (var_step field.now) }
{
    let place = letter_place(b"parc", field)? as u64;
    Some(Step::Root((place + 1) * 0x1_0000))
}

// A step of a word and one field, other than `rec`.
#[tactic(auto, using(crate::specs::LineLaws::same_bytes))]
fn step_with(word: &[u8], field: &[u8]) -> Option<Step>
    requires { is_text (bytes "rec") word.now ≡ false }
    ensures { Bare result (step_with word.now field.now) }
{
    if word == b"var".as_slice() {
        return var_step(field);
    }
    let number = read_decimal(field)?;
    if word == b"lit".as_slice() {
        return Some(Step::Root(0x5_0000 + number));
    }
    if word == b"attr".as_slice() {
        return Some(Step::Attr(number));
    }
    if word == b"full".as_slice() {
        return Some(Step::Full(number));
    }
    None
}

// A record literal with the fields of those names, at most NAMES of them.
fn rec_step(fields: &[u8], names: &mut [u64]) -> Option<Step>
    requires { length names.old ≡ 32 }
    ensures names_after { line_read result names.new ≡ rec_of (fields_of fields.now) }
    ensures result_bound { names_read result ≤ 32 }
{
    let count = read_names(fields, names)?;
    if Step::NAMES < count {
        return None;
    }
    Some(Step::Rec(count))
}

// The step of a line, by its fields.
#[tactic(auto, using(crate::specs::LineLaws::same_bytes))]
pub fn parse(line: &[u8], names: &mut [u64]) -> Option<Step>
    requires { length names.old ≡ 32 }
    ensures names_after { line_read result names.new ≡ step_from (fields_of line.now) }
    ensures result_bound { names_read result ≤ 32 }
{
    let Some(word_end) = field_end(line, 0) else {
        return bare_step(line);
    };
    let word = &line[..word_end];
    let second = word_end + 1;
    let rest = &line[second..];
    if word == b"rec".as_slice() {
        return rec_step(rest, names);
    }
    if field_end(line, second).is_some() {
        return None;
    }
    step_with(word, rest)
}
