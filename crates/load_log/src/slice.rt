// The entities of a slice (docs/FORMS.md, 'Slice out').
ghost use Rattle.std.specs.Prelude.{◌≤◌, length};

use crate::each::{write_parents, write_values};
use crate::line::write_line;
use answers::{Head, Lending};
use files::{Failure, To};

// Writes an entity of a slice: its head's id, its parents and its attributes.
fn write_entity(to: To, entity: &[u64]) -> Result<(), Failure> {
    let Some((word, behind)) = entity.split_first() else {
        return Ok(());
    };
    let head = Head::from(*word);
    write_line(to, b'E', &[head.flag])?;
    if behind.len() < head.parents {
        return Ok(());
    }
    write_parents(to, &behind[..head.parents])?;
    write_values(to, &behind[head.parents..])
}

// The end of the entity at a place of a slice: behind its head, its parents and its rows.
fn entity_end(slice: &[u64], at: usize) -> usize
    requires { at ≤ length slice.now }
    ensures { (at ≤ result) × (result ≤ length slice.now) }
{
    if slice.len() <= at {
        return at;
    }
    let size = Lending::Answers.behind(slice[at]);
    if slice.len() - at <= size {
        return slice.len();
    }
    at + 1 + size
}

// Writes the entities of a slice.
pub fn write_slice(to: To, slice: &[u64]) -> Result<(), Failure>
    requires { 1 ≤ length slice.now }
{
    let mut at = 1;
    for _ in 0..slice[0] {
        let end = entity_end(slice, at);
        write_entity(to, &slice[at..end])?;
        at = end;
    }
    Ok(())
}
