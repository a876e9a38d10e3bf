// A manifest's rows as a page: the list of request types, and the tree of each.
use crate::markup::{HEAD, MIDDLE, TAIL, put_close, put_link, put_open};
use files::{Failure, To};
use row_labels::{Names, Sink, put_entry, put_node, visit_rows};
use rows::Row;

// An entry in the list of request types.
fn put_item(sink: &mut Sink, names: Names, request: u64) -> Result<(), Failure> {
    put_link(sink, request)?;
    put_entry(sink, names, request)?;
    sink.put(b"</a></li>\n")
}

// The list of request types.
fn put_items(sink: &mut Sink, names: Names, rows: &[u64]) -> Result<(), Failure> {
    for word in rows {
        let row = Row { word: *word };
        if row.depth() == 0 {
            put_item(sink, names, row.step())?;
        }
    }
    Ok(())
}

// The label of a row: an entry's request type, or a node.
fn put_label(sink: &mut Sink, names: Names, request: u64, row: Row) -> Result<(), Failure> {
    if row.depth() == 0 {
        return put_entry(sink, names, request);
    }
    put_node(sink, names, request, row)
}

// A row, by the depth of the next one: those below it stand in it.
fn put_row(
    sink: &mut Sink,
    names: Names,
    request: u64,
    row: Row,
    next: u64,
) -> Result<(), Failure> {
    put_open(sink, row, row.depth() < next)?;
    put_label(sink, names, request, row)?;
    put_close(sink, row.depth(), next)
}

// The trees of all request types.
fn put_rows(sink: &mut Sink, names: Names, rows: &[u64]) -> Result<(), Failure> {
    visit_rows(rows, |request, row, next| {
        put_row(sink, names, request, row, next)
    })
}

// Writes the page of a manifest's rows.
pub fn write_page(to: To, rows: &[u64], names: Names) -> Result<(), Failure> {
    let mut sink = Sink::new(to, true);
    sink.put(HEAD)?;
    put_items(&mut sink, names, rows)?;
    sink.put(MIDDLE)?;
    put_rows(&mut sink, names, rows)?;
    sink.put(TAIL)?;
    sink.flush()
}
