// Where the lines of a schema stand: its types, entity types, literals and actions.
ghost use Rattle.std.specs.Prelude.{◌≡◌, true, ◌≤◌, ◌<◌, length, take};
ghost use Rattle.schema.specs.Items.{good_items};
ghost use Rattle.node_types.specs.Named.{EntityTable, PlacesFound};

use schema::Item;

// How many entity types a schema has, and the places of its first literal and its first action.
#[derive(Clone, Copy)]
pub struct Places {
    pub entities: usize,
    pub literals: usize,
    pub actions: usize,
}

impl Places {
    // As many entity types as a schema may have.
    pub const ENTITIES: usize = 1_024;

    // Finds them in one pass. `entities` gets a keyed word for each entity type: its name, and the place of its line.
    pub fn of(words: &[u64], entities: &mut [u64]) -> Places
        requires { (good_items words.now ≡ true) × ((length words.now < 142337) × (length entities.old ≡ 1024)) }
        ensures places_found { PlacesFound words.now result }
        ensures entities_bound { (result.entities ≤ 1024) × EntityTable words.now (take result.entities entities.new) }
    {
        let mut count = 0;
        let mut literals = 0;
        let mut actions = 0;
        for at in 0..words.len() {
            let item = Item::from(words[at]);
            if item.tag == Item::ENTITY_LINE {
                entities[count] = item.key * 0x100_0000_0000 + at as u64;
                count += 1;
            }
            if item.tag <= Item::ATTRIBUTE_LINE {
                literals = at + 1;
            }
            if item.tag <= Item::LITERAL_LINE {
                actions = at + 1;
            }
        }
        Places {
            entities: count,
            literals,
            actions,
        }
    }
}
