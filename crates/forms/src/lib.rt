// Refusal 1 in words: how a line or field is not of the stated form.
#![tactic(auto)]

use files::{Stream, say, say_line};
use pieces::{Piece, field_of, has_byte, has_fields, has_gap, is_decimal};

// The text that was refused.
#[derive(Clone, Copy, PartialEq, Eq, Debug)]
pub enum Form {
    Listing,
    Steps,
    Policy,
    Schema,
    Request,
    Store,
    Names,
}

// What a line has that no line of any other text than a name table may have, if it has it.
fn misshape(line: &[u8]) -> Option<&'static [u8]> {
    if line.is_empty() {
        return Some(b"a line is not empty");
    }
    if has_byte(line, 13, 13) {
        return Some(b"a line ends in LF alone, and this one has a CR");
    }
    if has_byte(line, 32, 32) || has_gap(line) {
        return Some(b"fields are parted by one tab");
    }
    if has_byte(line, 0, 8) || has_byte(line, 11, 31) || has_byte(line, 127, 255) {
        return Some(b"a byte that no text has");
    }
    None
}

// An `A` line.
fn say_entry(err: Stream, line: &[u8]) {
    if has_fields(line, 4) {
        say(
            err,
            b"an id is a decimal from 0 to 65535, without 0 in front",
        );
    } else {
        say(
            err,
            b"an A line has three fields: principal type, action, resource type",
        );
    }
}

// An `N` line.
fn say_node(err: Stream, line: &[u8]) {
    if !has_fields(line, 5) {
        say(err, b"an N line has four fields: depth, step, id, mark");
    } else if !is_decimal(line, 1) || !is_decimal(line, 3) || !is_decimal(line, 4) {
        say(
            err,
            b"depth, id and mark are decimals from 0 to 65535, without 0 in front",
        );
    } else {
        say(
            err,
            b"a depth is 1 to 24, a step f p a r c or e (at depth 1 not f), the id of p a r c is 0, a mark is 0 or 1",
        );
    }
}

// A line of a listing.
fn say_listing(err: Stream, line: &[u8], place: u64) {
    match field_of(line, 0) {
        b"A" => say_entry(err, line),
        b"N" => say_node(err, line),
        _ if place == 0 => say(err, b"expected an A line"),
        _ => say(err, b"expected an A line or an N line"),
    }
}

// `full`, with a type that is no number or that the schema does not have.
fn say_full(err: Stream, line: &[u8]) {
    if has_fields(line, 2) && is_decimal(line, 1) {
        say(err, b"the schema has no type ");
        say_line(err, field_of(line, 1));
    } else {
        say(err, b"full has one field, the number of a type");
    }
}

// A step's line.
fn say_step(err: Stream, line: &[u8]) {
    match field_of(line, 0) {
        b"full" => say_full(err, line),
        b"var" => say(err, b"var has one field, p, a, r or c"),
        b"lit" | b"attr" => say(
            err,
            b"lit and attr have one field, an id from 0 to 65535, without 0 in front",
        ),
        b"rec" => say(err, b"rec has 0 to 32 ids, strictly ascending"),
        b"none" | b"union" | b"drop" | b"in" | b"set" => say(err, b"this step has no field"),
        _ => say(
            err,
            b"expected a step: var lit none attr union drop full in set rec",
        ),
    }
}

// A line of a policy text.
fn say_policy(err: Stream, line: &[u8], place: u64) {
    match field_of(line, 0) {
        b"A" => say_entry(err, line),
        _ if place == 0 => say(err, b"expected an A line"),
        _ => say_step(err, line),
    }
}

// A line of a schema.
fn say_schema(err: Stream, line: &[u8]) {
    match field_of(line, 0) {
        b"T" => say(
            err,
            b"a T line has the next number from 0, a kind from 0 to 10, for 6 a type with a lower number, for 9 names that ascend; at most 1,024, in front of E, L and C lines",
        ),
        b"E" => say(
            err,
            b"an E line has a name above the last one's; at most 1,024, in front of L and C lines",
        ),
        b"F" => say(
            err,
            b"an F line has a field above the last one's and a type of the schema, below a record's or action's own number; at most 64, behind a T line of kind 7 or 8 or an E line",
        ),
        b"L" => say(
            err,
            b"an L line has an entity above the last one's and a type of the schema; at most 8,192, in front of C lines",
        ),
        b"C" => say(
            err,
            b"a C line has an action above the last one's and a type of the schema; at most 1,024",
        ),
        _ => say(err, b"expected a T, E, F, L or C line"),
    }
}

// A `V` line.
fn say_value(err: Stream, line: &[u8]) {
    if !has_fields(line, 5) {
        say(err, b"a V line has four fields: depth, key, kind, number");
    } else if !is_decimal(line, 1) || !is_decimal(line, 2) || !is_decimal(line, 4) {
        say(
            err,
            b"depth, key and number are decimals from 0 to 65535, without 0 in front",
        );
    } else {
        say(
            err,
            b"a depth is 1, or at most one above that of a set or record before it; the fields of a record ascend strictly, the elements of a set have the keys 0, 1, 2 .. and ascend strictly; a kind is n x e s or r, and the number of s and r is 0",
        );
    }
}

// A `Q` line.
fn say_question(err: Stream, line: &[u8]) {
    if has_fields(line, 6) {
        say(
            err,
            b"an id is a decimal from 0 to 65535, without 0 in front",
        );
    } else {
        say(
            err,
            b"a Q line has five fields: principal type, action, resource type, principal, resource",
        );
    }
}

// A line of a request: the first is a `Q` line.
fn say_request(err: Stream, line: &[u8], place: u64) {
    match field_of(line, 0) {
        b"Q" if place == 0 => say_question(err, line),
        _ if place == 0 => say(err, b"expected a Q line"),
        b"V" => say_value(err, line),
        _ => say(err, b"expected a V line"),
    }
}

// A line of a store: the first is an `E` line.
fn say_store(err: Stream, line: &[u8], place: u64) {
    match field_of(line, 0) {
        b"E" => say(err, b"an E line has an entity above the last one's"),
        _ if place == 0 => say(err, b"expected an E line"),
        b"P" => say(
            err,
            b"a P line has a parent above the last one's, in front of U and V lines",
        ),
        b"U" => say(
            err,
            b"a U line has an ancestor above the last one's, in front of V lines",
        ),
        b"V" => say_value(err, line),
        _ => say(err, b"expected an E, P, U or V line"),
    }
}

// Whether a field may be a name.
fn is_name(field: &[u8]) -> bool {
    !field.is_empty()
        && !has_byte(field, 0, 31)
        && !has_byte(field, 34, 34)
        && !has_byte(field, 92, 92)
        && !has_byte(field, 127, 255)
}

// A line of a name table. Its names may have spaces, so that it is judged by itself.
fn say_named(err: Stream, line: &[u8]) {
    let is_kind = matches!(field_of(line, 0), b"t" | b"e" | b"f");
    if !is_kind || !has_fields(line, 3) {
        say(
            err,
            b"a line has t (entity type), e (entity) or f (field), an id and a name, parted by one tab",
        );
    } else if !is_decimal(line, 1) {
        say(
            err,
            b"an id is a decimal from 0 to 65535, without 0 in front",
        );
    } else if !is_name(field_of(line, 2)) {
        say(
            err,
            b"a name is one printable ASCII character or more, without quote and backslash",
        );
    } else {
        say(
            err,
            b"lines ascend strictly by kind, in the order t e f, and then by id, and a name stands once within its kind",
        );
    }
}

// What was expected where a text has ended.
fn say_more(err: Stream, form: Form) {
    match form {
        Form::Request => say(err, b"expected a Q line"),
        Form::Listing | Form::Steps | Form::Policy | Form::Schema | Form::Store | Form::Names => {
            say(err, b"expected an A line")
        }
    }
}

// What was expected of a line, which has a place.
pub fn say_form(err: Stream, form: Form, place: u64, piece: Piece) {
    if piece.is_behind() {
        say_more(err, form);
        return;
    }
    if piece.is_cut() {
        say(err, b"no LF at the end");
        return;
    }
    let line = piece.bytes();
    if form != Form::Names {
        if let Some(misshape) = misshape(line) {
            say(err, misshape);
            return;
        }
    }
    match form {
        Form::Listing => say_listing(err, line, place),
        Form::Steps => say_step(err, line),
        Form::Policy => say_policy(err, line, place),
        Form::Schema => say_schema(err, line),
        Form::Request => say_request(err, line, place),
        Form::Store => say_store(err, line, place),
        Form::Names => say_named(err, line),
    }
}
