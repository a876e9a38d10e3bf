// The slice of a load (docs/FORMS.md, 'Slice out'), built from the answers to its rows: its entities in order, each with its answers merged.
// The rows are sorted by entity once, so that each entity is written from its own rows.
#![tactic(auto)]

mod entity;
mod ids;
mod keys;

ghost use Rattle.std.specs.Prelude.{List};
ghost use Rattle.rules.specs.Loading.{Loaded, with_ancestors};
ghost use Rattle.rules.specs.SliceLaws.{SliceOf};
ghost use Rattle.slices.specs.Slices.{rows_asked, answers_in, sets_in, SliceFit, WroteSlice};

use entity::{Ancestors, Group};
pub use ids::union_ids;
use keys::{IDS, group_end, sort_keys, write_keys};

// A slice that is written: how many entities it has, and the place after it.
#[derive(Clone, Copy, PartialEq, Eq, Debug)]
pub struct Built {
    pub count: u64,
    pub end: usize,
}

// Writes the slice of rows and their answers, with the answered ancestors, from a place on. An entity to which no row has an answer is
// passed over.
pub fn build_slice(
    words: &[u64],
    rows: &[u64],
    places: &[u64],
    sets: &[u64],
    set_places: &[u64],
    out: &mut [u64],
    to: usize,
    scratch: &mut [u64],
) -> Built
    requires { SliceFit words.now rows.now places.now sets.now set_places.now out.old to scratch.old }
    ensures { (slice : List Loaded) → SliceOf (rows_asked rows.now) (answers_in words.now places.now) slice → WroteSlice (with_ancestors (rows_asked rows.now) (sets_in sets.now set_places.now) slice) out.old to out.new result }
{
    let mut keys = [0u64; 4096];
    let len = rows.len();
    write_keys(rows, &mut keys[..]);
    sort_keys(&mut keys[..], 0, len, scratch);
    let sorted = &keys[..len];
    let ancestors = Ancestors {
        sets,
        places: set_places,
    };
    let mut end = to;
    let mut count: u64 = 0;
    let mut from = 0;
    while from < len {
        let entity = sorted[from] % IDS;
        let behind = group_end(sorted, from);
        let group = Group {
            words,
            keys: &sorted[from..behind],
            places,
            entity,
        };
        if group.next_answer(0).is_some() {
            end = group.write_entity(ancestors, out, end, scratch);
            count += 1;
        }
        from = behind;
    }
    Built { count, end }
}
