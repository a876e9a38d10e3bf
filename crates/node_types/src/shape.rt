// What a type says of the fields of a node.
ghost use Rattle.std.specs.Prelude.{◌-◌, ◌<◌};
ghost use Rattle.rules.specs.Typing.{shape_of, type_shape, entity_shape};
ghost use Rattle.schema.specs.Items.{items_of};
ghost use Rattle.node_types.specs.Shapes.{ShapeAt};

use crate::tables::SchemaTables;
use rows::RequestType;
use schema::Item;
use type_table::{attributes_end, size_at};
use words::search_key;

// Which fields there are, as attributes from a place to a place; that there are none; or nothing, for the type is not strict.
#[derive(Clone, Copy, PartialEq, Eq, Debug)]
pub enum Shape {
    Known(usize, usize),
    Leaf,
    NotStrict,
}

// The types of roots p and r, as a row has them: those of the entry's principal and resource.
pub const OF_PRINCIPAL: u64 = 1_025;

pub const OF_RESOURCE: u64 = 1_026;

impl SchemaTables<'_> {
    // That of a node's type, as a row has it.
    pub fn shape(&self, request: u64, number: u64) -> Shape
        requires { 0 < number }
        ensures { ShapeAt self.now.types.words.now (shape_of (items_of self.now.types.words.now) request (number - 1)) result }
    {
        match number {
            OF_PRINCIPAL => self.entity_shape(RequestType::from(request).principal),
            OF_RESOURCE => self.entity_shape(RequestType::from(request).resource),
            _ => self.type_shape(number - 1),
        }
    }

    // That of a type of the schema, by its number.
    fn type_shape(&self, t: u64) -> Shape
        ensures { ShapeAt self.now.types.words.now (type_shape (items_of self.now.types.words.now) t) result }
    {
        if self.types.count <= t {
            return Shape::Leaf;
        }
        let words = self.types.words;
        let place = size_at(self.types.table, t).place;
        let item = Item::from(words[place]);
        let kind = item.tag;
        match kind {
            0..=6 => Shape::Leaf,
            7 | 8 => Shape::Known(place + 1, attributes_end(words, place + 1)),
            9 => self.entity_shape(item.value),
            _ => Shape::NotStrict,
        }
    }

    // That of an entity type, by its name; a number past all ids stands for several names, which no entity type has.
    fn entity_shape(&self, name: u64) -> Shape
        ensures { ShapeAt self.now.types.words.now (entity_shape (items_of self.now.types.words.now) name) result }
    {
        let entities = self.entities;
        let Ok(i) = search_key(entities, name) else {
            return Shape::NotStrict;
        };
        let first = (entities[i] % 0x100_0000_0000) as usize + 1;
        Shape::Known(first, attributes_end(self.types.words, first))
    }
}
