// A manifest's rows from one to the next.
use files::Failure;
use rows::Row;

// The rows of a manifest, behind its count. A count that is too large, which no manifest that was read has, counts none.
pub fn rows_of(manifest: &[u64]) -> &[u64] {
    let Some((count, rows)) = manifest.split_first() else {
        return &[];
    };
    rows.get(..*count as usize).unwrap_or(&[])
}

// The request type that a row stands under, by the one in front of it: an entry has its own.
fn request_at(row: Row, before: u64) -> u64 {
    if row.depth() == 0 {
        return row.step();
    }
    before
}

// The depth of the row at a place, and 0 behind the last.
fn depth_at(rows: &[u64], i: usize) -> u64 {
    rows.get(i).map_or(0, |word| Row { word: *word }.depth())
}

// Visits each row, with the request type that it stands under and the depth of the next row.
pub fn visit_rows<F: FnMut(u64, Row, u64) -> Result<(), Failure>>(
    rows: &[u64],
    mut visit: F,
) -> Result<(), Failure>
    requires { F.IsAlwaysCallable visit }
{
    let mut request = 0;
    for (i, word) in rows.iter().enumerate() {
        let row = Row { word: *word };
        request = request_at(row, request);
        visit(request, row, depth_at(rows, i + 1))?;
    }
    Ok(())
}
