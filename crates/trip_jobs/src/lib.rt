// `trips FILE [NAMES]`: what a load takes at most for each request type of a manifest, with names.
#![tactic(auto)]

use entity_manifest::{TripBound, trip_bound};
use files::{CommandLine, Failure, To};
use row_labels::{Names, Sink, put_entry, rows_of};
use rows::Row;

// What a load takes at most, in words.
fn put_bound(sink: &mut Sink, bound: TripBound) -> Result<(), Failure> {
    sink.put(b" takes at most ")?;
    sink.put_number(bound.rows)?;
    sink.put(b" rows in ")?;
    sink.put_number(bound.batches)?;
    sink.put(b" batches, and ")?;
    sink.put_number(bound.ancestors)?;
    sink.put(b" ancestors call\n")
}

// The line of a request type. No manifest that was read is refused.
fn put_request(
    sink: &mut Sink,
    names: Names,
    manifest: &[u64],
    request: u64,
) -> Result<(), Failure> {
    let Ok(bound) = trip_bound(manifest, request) else {
        return Err(Failure::Refused);
    };
    sink.put(b"A request of ")?;
    put_entry(sink, names, request)?;
    put_bound(sink, bound)
}

// The line of each entry of a manifest.
fn put_requests(sink: &mut Sink, names: Names, manifest: &[u64]) -> Result<(), Failure> {
    for word in rows_of(manifest) {
        let row = Row { word: *word };
        if row.depth() == 0 {
            put_request(sink, names, manifest, row.step())?;
        }
    }
    Ok(())
}

// Writes the bounds of a manifest's request types.
fn write_trips(to: To, manifest: &[u64], names: Names) -> Result<(), Failure> {
    let mut sink = Sink::new(to, false);
    put_requests(&mut sink, names, manifest)?;
    sink.flush()
}

// Reads a listing and a name table, if one is named, and writes the bounds.
pub fn trips(line: CommandLine) -> Result<(), Failure> {
    jobs::draw(
        line,
        |manifest, names| write_trips(line.to, manifest, names),
    )
}
