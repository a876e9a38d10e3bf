// `tree FILE [NAMES]`: a manifest drawn as an indented tree, with names.
#![tactic(auto)]

use files::{CommandLine, Failure, To};
use row_labels::{Names, Sink, put_entry, put_node, rows_of, visit_rows};
use rows::Row;

// The line of an entry, and whether nothing is read.
fn put_request(sink: &mut Sink, names: Names, request: u64, is_empty: bool) -> Result<(), Failure> {
    sink.put(b"A request of ")?;
    put_entry(sink, names, request)?;
    if is_empty {
        return sink.put(b" reads nothing\n");
    }
    sink.put(b" reads\n")
}

// The line of a node.
fn put_line(sink: &mut Sink, names: Names, request: u64, row: Row) -> Result<(), Failure> {
    for _ in 0..row.depth() {
        sink.put(b"  ")?;
    }
    put_node(sink, names, request, row)?;
    sink.put(b"\n")
}

// The line of a row, by the depth of the next one.
fn put_row(
    sink: &mut Sink,
    names: Names,
    request: u64,
    row: Row,
    next: u64,
) -> Result<(), Failure> {
    if row.depth() == 0 {
        return put_request(sink, names, request, next == 0);
    }
    put_line(sink, names, request, row)
}

// Writes the tree of a manifest.
fn write_tree(to: To, manifest: &[u64], names: Names) -> Result<(), Failure> {
    let mut sink = Sink::new(to, false);
    visit_rows(rows_of(manifest), |request, row, next| {
        put_row(&mut sink, names, request, row, next)
    })?;
    sink.flush()
}

// Reads a listing and a name table, if one is named, and writes the tree.
pub fn tree(line: CommandLine) -> Result<(), Failure> {
    jobs::draw(line, |manifest, names| write_tree(line.to, manifest, names))
}
