// Where a schema has come to, and whether a line may come next.
ghost use Rattle.std.specs.Prelude.{◌≡◌, true, ◌≤◌};
ghost use Rattle.rules.specs.Schema.{unknown, section_of, most_of, room_after, within as within_of, key_fits, value_fits, fits as fits_of, beyond as beyond_of};
ghost use Rattle.schema.specs.Items.{item_for};
ghost use Rattle.schema.specs.Bounds.{known_for, Bounded};

use crate::item::Item;

// The section and what its next line may be, the number of types, and what the next attribute may be.
#[derive(Clone, Copy, PartialEq, Eq, Debug, Default)]
pub struct Known {
    pub section: u64,
    pub lines: u64,
    pub least: u64,
    pub types: u64,
    pub room: u64,
    pub field: u64,
    pub bound: u64,
}

// The section of a line: types, entity types with their attributes, literals, actions.
fn section_of(tag: u64) -> u64
    ensures { result ≡ section_of tag }
{
    match tag {
        0..=10 => 0,
        11 | 12 => 1,
        13 => 2,
        _ => 3,
    }
}

// How many lines a section may have, beside attributes.
fn most_of(section: u64) -> u64
    ensures { result ≡ most_of section }
{
    if section == 2 {
        Known::LITERALS
    } else {
        Known::TYPES
    }
}

// How many attributes may follow a line.
fn room_after(tag: u64) -> u64
    ensures { result ≡ room_after tag }
{
    match tag {
        7 | 8 | 11 => Known::ATTRIBUTES,
        _ => 0,
    }
}

impl Known {
    // At most so many types, and as many entity types and actions.
    pub const TYPES: u64 = 1_024;

    pub const LITERALS: u64 = 8_192;

    // A record, an action and an entity type have at most so many attributes.
    pub const ATTRIBUTES: u64 = 64;

    // Before the first line.
    pub fn new() -> Known
        ensures { known_for result ≡ unknown }
    {
        Known::default()
    }

    // The same in a section, at its start where it is a later one.
    fn within(self, section: u64) -> Known
        ensures { known_for result ≡ within_of (known_for self) section }
    {
        if self.section == section {
            return self;
        }
        Known {
            section,
            types: self.types,
            ..Known::default()
        }
    }

    // Types are numbered in order, other keys ascend.
    fn key_fits(self, item: Item) -> bool
        ensures { result ≡ key_fits (known_for self) (item_for item) }
    {
        if item.tag <= Item::LAST {
            return item.key == self.lines;
        }
        self.least <= item.key
    }

    // A type that a line names is there, and a set's element type is lower.
    fn value_fits(self, item: Item) -> bool
        ensures { result ≡ value_fits (known_for self) (item_for item) }
    {
        if item.tag == Item::SET {
            return item.value < item.key;
        }
        if item.tag <= Item::ATTRIBUTE_LINE {
            return true;
        }
        item.value < self.types
    }

    // Whether a line may come next.
    pub fn fits(self, item: Item) -> bool
        ensures { result ≡ fits_of (known_for self) (item_for item) }
    {
        if item.tag == Item::ATTRIBUTE_LINE {
            if self.room == 0 {
                return false;
            }
            if item.key < self.field {
                return false;
            }
            return item.value < self.bound;
        }
        let section = section_of(item.tag);
        if section < self.section {
            return false;
        }
        let there = self.within(section);
        if most_of(section) <= there.lines {
            return false;
        }
        if !there.key_fits(item) {
            return false;
        }
        self.value_fits(item)
    }

    // Where the schema has come to after a line that may come next.
    pub fn beyond(self, item: Item) -> Known
        requires item_value { fits_of (known_for self) (item_for item) ≡ true }
        requires bounded { Bounded (known_for self) × (item.key ≤ 65535) }
        ensures result_value { known_for result ≡ beyond_of (known_for self) (item_for item) }
        ensures bounded_2 { Bounded (known_for result) }
    {
        if item.tag == Item::ATTRIBUTE_LINE {
            return Known {
                room: self.room - 1,
                field: item.key + 1,
                ..self
            };
        }
        let section = section_of(item.tag);
        let mut types = self.types;
        if item.tag <= Item::LAST {
            types += 1;
        }
        Known {
            section,
            lines: self.within(section).lines + 1,
            least: item.key + 1,
            types,
            room: room_after(item.tag),
            field: 0,
            bound: self.types,
        }
    }
}
