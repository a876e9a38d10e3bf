// What is a line each: the rows of a batch; in words, the parents of an entity and the rows of a value.
use crate::line::{write_line, write_value_row};
use files::{Failure, To};
use values::{EntityRequest, ValueRow};

// Writes all items, each by what writes one.
fn write_each<T, F: Fn(&T) -> Result<(), Failure>>(items: &[T], write: F) -> Result<(), Failure>
    requires { F.IsAlwaysCallable write }
{
    for item in items {
        write(item)?;
    }
    Ok(())
}

// Writes the parents of an entity.
pub fn write_parents(to: To, parents: &[u64]) -> Result<(), Failure> {
    write_each(parents, |parent| write_line(to, b'P', &[*parent]))
}

// Writes the rows of a value.
pub fn write_values(to: To, words: &[u64]) -> Result<(), Failure> {
    write_each(words, |word| write_value_row(to, ValueRow { word: *word }))
}

// Writes a batch: its number, how many rows it has, and each row's entity and node.
pub fn write_batch(to: To, number: u64, rows: &[EntityRequest]) -> Result<(), Failure> {
    write_line(to, b'B', &[number, rows.len() as u64])?;
    write_each(rows, |row| write_line(to, b'Q', &[row.id, row.node]))
}
