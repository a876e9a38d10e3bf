// The check that a lent schema is lawful: one pass.
ghost use Rattle.std.specs.Prelude.{◌≡◌};
ghost use Rattle.schema.specs.Items.{lawful_schema, good_items};

use crate::item::Item;
use crate::known::Known;

// The lent state of a schema: its length.
#[derive(Drop)]
pub struct Schema {}

impl Schema {
    pub const WORDS: usize = 142_337;
}

// Whether words are items that may stand one after the other.
fn are_items(words: &[u64]) -> bool
    ensures { result ≡ good_items words.now }
{
    let mut known = Known::new();
    for word in words {
        let item = Item::from(*word);
        if !item.is_item() {
            return false;
        }
        if !known.fits(item) {
            return false;
        }
        known = known.beyond(item);
    }
    true
}

// Whether a lent state is a lawful schema.
pub fn is_lawful(state: &[u64]) -> bool
    ensures { result ≡ lawful_schema state.now }
{
    if state.len() < Schema::WORDS {
        return false;
    }
    let count = state[0];
    if 142_336 < count {
        return false;
    }
    let end = count as usize + 1;
    are_items(&state[1..end])
}
