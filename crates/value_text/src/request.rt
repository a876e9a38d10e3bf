// A request's text: its first line, and its context behind it.
ghost use Rattle.std.specs.Prelude.{◌≡◌, drop};
ghost use Rattle.rules.specs.Text.{fields_of};
ghost use Rattle.rules.specs.ValueTexts.{asked_of};
ghost use Rattle.value_text.specs.Asking.{asked_read, asked_fields, read_request_in};

use crate::line::after_letter;
use crate::reading::{WORDS, read_value};
use text::{Line, TAB, number_at, read_decimal};
use words::Refusal;

// What a request asks with: its type as one number, and the ids of its principal and its resource.
#[derive(Clone, Copy, PartialEq, Eq, Debug)]
pub struct Request {
    pub request_type: u64,
    pub principal: u64,
    pub resource: u64,
}

// The request of a first line, by the fields from a place on, behind its letter.
fn request_at(line: &[u8], at: usize) -> Option<Request>
    ensures { asked_read result ≡ asked_fields (fields_of (drop at line.now)) }
{
    let (p, p_end) = number_at(line, at, TAB)?;
    let (a, a_end) = number_at(line, p_end + 1, TAB)?;
    let (r, r_end) = number_at(line, a_end + 1, TAB)?;
    let (principal, principal_end) = number_at(line, r_end + 1, TAB)?;
    let resource = read_decimal(&line[principal_end + 1..])?;
    Some(Request {
        request_type: (p * 0x1_0000 + a) * 0x1_0000 + r,
        principal,
        resource,
    })
}

// The request of a first line, by its fields, if it is of the stated form.
fn parse_request(line: &[u8]) -> Option<Request>
    ensures { asked_read result ≡ asked_of (fields_of line.now) }
{
    let at = after_letter(line, b'Q')?;
    request_at(line, at)
}

// Reads a request's text, its context into a state; a refusal leaves the state as it was.
pub fn read_request(text: &[u8], out: &mut [u64]) -> Result<Request, Refusal>
    ensures { (result ≡ (read_request_in text.now out.old).reply) × (out.new ≡ (read_request_in text.now out.old).buffer) }
{
    if out.len() < WORDS {
        return Err(Refusal::SHORT);
    }
    let refusal = Refusal {
        number: 1,
        place: 0,
    };
    let Line::Whole(end) = Line::at(text, 0) else {
        return Err(refusal);
    };
    let Some(request) = parse_request(&text[..end]) else {
        return Err(refusal);
    };
    read_value(text, end + 1, 1, out)?;
    Ok(request)
}
