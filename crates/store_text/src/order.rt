// The order of elements in all sets of a store, once every line has passed.
ghost use Rattle.std.specs.Prelude.{◌<◌, length};
ghost use Rattle.store_text.specs.Entities.{Entities, OrderFound};

use crate::runs::{Part, run_end};

// The place of the first word that is an element not above the one before it, if there is one. `levels` is scratch, one word a depth.
pub fn first_unordered(words: &[u64], levels: &mut [u64]) -> Option<usize>
    requires { Entities words.now × (length words.now < length levels.old) }
    ensures { OrderFound words.now result }
{
    let mut i = 0;
    while i < words.len() {
        let parents_end = run_end(words, i + 1, Part::Parents);
        let start = run_end(words, parents_end, Part::Ancestors);
        let end = run_end(words, start, Part::Rows);
        if let Some(first) = value_text::first_misplaced(&words[start..end], levels) {
            return Some(start + first);
        }
        i = end;
    }
    None
}
