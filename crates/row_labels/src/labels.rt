// The rows of a manifest in words, with names where the table has them.
use crate::sink::Sink;
use files::Failure;
use name_table::find_name;
use rows::{RequestType, Row, StepParts};

// What is added to an id for its key in a name table: nothing for an entity type.
const ENTITIES: u64 = 0x1_0000;

const FIELDS: u64 = 0x2_0000;

// A name table as it was read: its text, and the words that say where each name stands in it. There are no names where both are empty.
#[derive(Clone, Copy)]
pub struct Names<'a> {
    pub text: &'a [u8],
    pub words: &'a [u64],
}

// The name of a key, or its id where there is none.
fn put_key(sink: &mut Sink, names: Names, key: u64) -> Result<(), Failure> {
    let Some((from, to)) = find_name(names.text, names.words, key) else {
        return sink.put_number(key % 0x1_0000);
    };
    sink.put_name(&names.text[from..to])
}

// Words, and the name of a key behind them.
fn put_named(sink: &mut Sink, names: Names, words: &[u8], key: u64) -> Result<(), Failure> {
    sink.put(words)?;
    put_key(sink, names, key)
}

// The same in parentheses, which the words open.
fn put_enclosed(sink: &mut Sink, names: Names, words: &[u8], key: u64) -> Result<(), Failure> {
    put_named(sink, names, words, key)?;
    sink.put(b")")
}

// A request type.
pub fn put_entry(sink: &mut Sink, names: Names, request: u64) -> Result<(), Failure> {
    let parts = RequestType::from(request);
    put_named(sink, names, b"principal type ", parts.principal)?;
    put_named(sink, names, b", action ", ENTITIES + parts.action)?;
    put_named(sink, names, b", resource type ", parts.resource)
}

// A step by its kind (docs/FORMS.md, 'Words'), with the name of its field or entity, or of the request's principal type, action or resource
// type.
fn put_step(sink: &mut Sink, names: Names, request: u64, step: u64) -> Result<(), Failure> {
    let parts = StepParts::from(step);
    let asked = RequestType::from(request);
    match parts.kind {
        0 => put_named(sink, names, b"field ", FIELDS + parts.id),
        1 => put_enclosed(sink, names, b"principal (", asked.principal),
        2 => put_enclosed(sink, names, b"action (", ENTITIES + asked.action),
        3 => put_enclosed(sink, names, b"resource (", asked.resource),
        4 => sink.put(b"context"),
        _ => put_named(sink, names, b"entity ", ENTITIES + parts.id),
    }
}

// A mark.
fn put_mark(sink: &mut Sink) -> Result<(), Failure> {
    if sink.escapes {
        return sink.put(b" <em>asked for as an ancestor</em>");
    }
    sink.put(b" (asked for as an ancestor)")
}

// Whether a node enters an ancestors trie: it is a root below depth 1, and no field.
pub fn is_ancestors(row: Row) -> bool {
    1 < row.depth() && StepParts::from(row.step()).kind != 0
}

// A node: whether it enters an ancestors trie, its step, and its mark.
pub fn put_node(sink: &mut Sink, names: Names, request: u64, row: Row) -> Result<(), Failure> {
    if is_ancestors(row) {
        sink.put(b"ancestors named by ")?;
    }
    put_step(sink, names, request, row.step())?;
    if row.is_marked() {
        put_mark(sink)?;
    }
    Ok(())
}
