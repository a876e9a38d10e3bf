// Refusals in words: the number and its place, the line as editors count it, what was expected, and what was met.
#![tactic(auto)]

use files::{Stream, say, say_line, say_name, say_number};
use forms::Form;
use pieces::{Piece, depth_of, field_of, line_of, node_of};
use words::Refusal;

// As much of a line as a message shows.
const SHOWN: usize = 80;

// Whether a line ends the steps of a contribution: it is the end of the text, or an `A` line.
fn is_end(piece: Piece) -> bool {
    piece.is_behind() || matches!(field_of(piece.bytes(), 0), b"A")
}

// 2: the listing's order.
fn say_order(err: Stream, line: &[u8], before: &[u8], place: u64) {
    if let b"A" = field_of(line, 0) {
        say(err, b"request types ascend strictly");
        return;
    }
    if place == 0 {
        say(err, b"an N line before any A line");
        return;
    }
    let depth = depth_of(line);
    let last = depth_of(before);
    if last < depth && last != depth - 1 {
        say(
            err,
            b"its depth is more than one above that of the line before",
        );
        return;
    }
    say(
        err,
        b"nodes under one parent ascend strictly by step, in the order f p a r c e, and then by id",
    );
}

// 4: too many nodes.
fn say_nodes(err: Stream, form: Form, is_end: bool) {
    if is_end {
        say(
            err,
            b"with the contribution that ends here the manifest would have over 4,096 nodes",
        );
        return;
    }
    match form {
        Form::Steps | Form::Policy => say(err, b"over 1,024 nodes in a contribution"),
        Form::Listing | Form::Schema | Form::Request | Form::Store | Form::Names => {
            say(err, b"over 4,096 nodes")
        }
    }
}

// 5: too many request types.
fn say_types(err: Stream, form: Form) {
    match form {
        Form::Policy => say(
            err,
            b"the contribution that ends here has a 65th request type",
        ),
        Form::Listing | Form::Steps | Form::Schema | Form::Request | Form::Store | Form::Names =>
            say(err, b"a 65th request type"),
    }
}

// 6: results.
fn say_results(err: Stream, line: &[u8], is_end: bool) {
    if is_end {
        say(err, b"not one result at the end");
        return;
    }
    let is_pushed = line == b"rec".as_slice()
        || matches!(field_of(line, 0), b"var" | b"lit" | b"none");
    if is_pushed {
        say(err, b"over 32 results");
    } else {
        say(err, b"too few results");
    }
}

// A number's reason, at a line and with the line before it.
fn say_reason(err: Stream, number: u64, line: &[u8], before: &[u8], place: u64) {
    match number {
        2 => say_order(err, line, before, place),
        3 => say(err, b"a position would exceed 24 steps"),
        7 => say(err, b"a set is dereferenced"),
        8 => say(err, b"a literal against its type"),
        15 => say(err, b"over 256 path nodes in a result"),
        31 => say(err, b"a lent buffer is too short"),
        _ => say(err, b"refused"),
    }
}

// The line before a place; nothing before the first.
fn before_of(text: &[u8], place: u64) -> &[u8] {
    if place == 0 {
        return b"";
    }
    line_of(text, place - 1).bytes()
}

// What was expected at a place of a text.
fn say_expected(err: Stream, form: Form, number: u64, place: u64, text: &[u8]) {
    let piece = line_of(text, place);
    let line = piece.bytes();
    match number {
        1 => forms::say_form(err, form, place, piece),
        4 => say_nodes(err, form, is_end(piece)),
        5 => say_types(err, form),
        6 => say_results(err, line, is_end(piece)),
        _ => say_reason(err, number, line, before_of(text, place), place),
    }
}

// What was met at a place of a text.
fn say_met(err: Stream, place: u64, text: &[u8]) {
    let piece = line_of(text, place);
    if piece.is_behind() {
        say(err, b"; met the end of the text");
        return;
    }
    say(err, b"; met ");
    let line = piece.bytes();
    let shown = &line[..SHOWN.min(line.len())];
    say_line(err, shown);
    if shown.len() < line.len() {
        say(err, b"..");
    }
}

// `terbagyl: FILE: refused N`
fn say_number_of(err: Stream, name: &[u8], number: u64) {
    say(err, b"terbagyl: ");
    say_name(err, name);
    say(err, b": refused ");
    say_number(err, number);
}

// `terbagyl: FILE: refused N at P (line L): what was expected; met LINE`
pub fn say_refused(err: Stream, name: &[u8], form: Form, refusal: Refusal, text: &[u8]) {
    let Refusal { number, place } = refusal;
    say_number_of(err, name, number);
    say(err, b" at ");
    say_number(err, place);
    if place < 65_537 {
        say(err, b" (line ");
        say_number(err, place + 1);
        say(err, b")");
    }
    say(err, b": ");
    say_expected(err, form, number, place, text);
    say_met(err, place, text);
    say(err, b"\n");
}

// `terbagyl: FILE: refused N at 0: the manifest would have too much`
pub fn say_unadded(err: Stream, name: &[u8], number: u64) {
    say_number_of(err, name, number);
    match number {
        4 => say(
            err,
            b" at 0: with the files before it the manifest would have over 4,096 nodes\n",
        ),
        5 => say(
            err,
            b" at 0: with the files before it the manifest would have a 65th request type\n",
        ),
        _ => say(err, b" at 0: it cannot be added\n"),
    }
}

// 9: what the schema does not say of a node's root.
fn say_unknown(err: Stream, node: &[u8]) {
    match field_of(node, 2) {
        b"a" => say(err, b"the schema has no L line for the action"),
        b"c" => say(err, b"the schema has no C line for the action"),
        _ => say(err, b"the schema has no L line for this literal"),
    }
}

// Why a node cannot be typed.
fn say_untypable(err: Stream, number: u64, node: &[u8]) {
    match number {
        9 => say_unknown(err, node),
        10 => say(
            err,
            b"not strict: its type is any-entity, an entity type with several names, or one that the schema has no E line for",
        ),
        11 => say(err, b"fields below a node whose type has none"),
        _ => say(err, b"refused"),
    }
}

// `terbagyl: NAME: refused N at P (line L): reason; met LINE under A LINE`: node P of a listing cannot be typed.
pub fn say_untyped(err: Stream, name: &[u8], refusal: Refusal, listing: &[u8]) {
    let Refusal { number, place } = refusal;
    let node = node_of(listing, place);
    say_number_of(err, name, number);
    say(err, b" at ");
    say_number(err, place);
    say(err, b" (line ");
    say_number(err, node.line_number() as u64);
    say(err, b"): ");
    say_untypable(err, number, node.bytes());
    say(err, b"; met ");
    say_line(err, node.bytes());
    say(err, b" under ");
    say_line(err, node.entry().bytes());
    say(err, b"\n");
}

// 15: too much is loaded, or asked for.
fn say_large(err: Stream, is_asking: bool) {
    if is_asking {
        say(err, b"over 256 ids in one ancestors request");
        return;
    }
    say(err, b"over 8,192 loaded values, parents and ancestor ids");
}

// Why a load is refused; `is_asking` where ancestors were to be asked for.
fn say_unloadable(err: Stream, number: u64, is_asking: bool) {
    match number {
        12 => say(err, b"another count of answers than of rows"),
        13 => say(err, b"two answers to one entity do not agree"),
        14 => say(
            err,
            b"a value is not of a kind that the manifest can read there",
        ),
        15 => say_large(err, is_asking),
        _ => say(err, b"refused"),
    }
}

// `terbagyl: FILE: refused N at P: reason`: a load cannot go on for what FILE says.
pub fn say_unloaded(err: Stream, name: &[u8], refusal: Refusal, is_asking: bool) {
    let Refusal { number, place } = refusal;
    say_number_of(err, name, number);
    say(err, b" at ");
    say_number(err, place);
    say(err, b": ");
    say_unloadable(err, number, is_asking);
    say(err, b"\n");
}

// `terbagyl: cannot: reason; see terbagyl help`
pub fn say_misused(err: Stream, reason: &[u8], about: &[u8]) {
    say(err, b"terbagyl: cannot: ");
    say(err, reason);
    say_name(err, about);
    say(err, b"; see terbagyl help\n");
}
