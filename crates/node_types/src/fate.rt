// What becomes of a node.
ghost use Rattle.std.specs.Prelude.{◌≡◌, ◌+◌, ◌-◌, ◌≤◌, ◌<◌, length, drop, get_or};
ghost use Rattle.rules.specs.Typing.{root_type, field_type, shape_of, of_shape, has_fields, fate};
ghost use Rattle.rows.specs.Words.{type_from, number_for, row_in};
ghost use Rattle.rows.specs.States.{rows_of};
ghost use Rattle.schema.specs.Items.{items_of};
ghost use Rattle.node_types.specs.Shapes.{FateGiven};

use crate::shape::{OF_PRINCIPAL, OF_RESOURCE, Shape};
use crate::tables::SchemaTables;
use rows::{RequestType, Row, StepParts};
use type_table::type_named;

// It stays and has a type, as a row has it; it is dropped; or its number is given.
#[derive(Clone, Copy, PartialEq, Eq, Debug)]
pub enum Fate {
    Stays(u64),
    Dropped,
    Wrong(u64),
}

// Whether the row at a place has field children: fields stand before roots, so where there is one the next row is one.
fn has_fields(rows: &[u64], i: usize) -> bool
    requires { i < length rows.now }
    ensures { result ≡ has_fields (row_in (get_or rows.now i 0)) (rows_of (drop (i + 1) rows.now)) }
{
    let next = i + 1;
    if rows.len() <= next {
        return false;
    }
    let row = Row { word: rows[i] };
    let below = Row { word: rows[next] };
    if below.depth() != row.depth() + 1 {
        return false;
    }
    StepParts::from(below.step()).kind == 0
}

impl SchemaTables<'_> {
    // That of the node at a place among rows, below one of a type, as a row has it; 0 where that one is dropped.
    pub fn fate_at(&self, request: u64, above: u64, rows: &[u64], i: usize) -> Fate
        requires { i < length rows.now }
        ensures { FateGiven (fate (items_of self.now.types.words.now) request (type_from above) (row_in (get_or rows.now i 0)) (rows_of (drop (i + 1) rows.now))) result }
    {
        if above == 0 {
            return Fate::Dropped;
        }
        let children = has_fields(rows, i);
        let step = Row { word: rows[i] }.step();
        let parts = StepParts::from(step);
        if parts.kind == 0 {
            let number = self.field_type(request, above, parts.id);
            if number == 0 {
                return Fate::Dropped;
            }
            return self.typed_fate(request, number, children);
        }
        let number = self.root_type(request, step);
        if number == 0 {
            return Fate::Wrong(9);
        }
        self.typed_fate(request, number, children)
    }

    // The type of a root, as a row has it; 0 where the schema lacks the literal or the action.
    fn root_type(&self, request: u64, step: u64) -> u64
        ensures { result ≡ number_for (root_type (items_of self.now.types.words.now) request step) }
    {
        let words = self.types.words;
        let action = RequestType::from(request).action;
        let parts = StepParts::from(step);
        let kind = parts.kind;
        let first = self.places.literals;
        let end = self.places.actions;
        match kind {
            1 => OF_PRINCIPAL,
            2 => type_named(&words[first..end], action),
            3 => OF_RESOURCE,
            4 => type_named(&words[end..], action),
            _ => type_named(&words[first..end], parts.id),
        }
    }

    // The type of a field below a node of a type, as a row has both; 0 where the type lacks the field.
    fn field_type(&self, request: u64, above: u64, field: u64) -> u64
        requires { 0 < above }
        ensures { result ≡ number_for (field_type (items_of self.now.types.words.now) request (above - 1) field) }
    {
        let shape = self.shape(request, above);
        let Shape::Known(first, end) = shape else {
            return 0;
        };
        let words = self.types.words;
        type_named(&words[first..end], field)
    }

    // That of a node with a type, by what the type says of fields and whether the node has field children.
    fn typed_fate(&self, request: u64, number: u64, children: bool) -> Fate
        requires { (0 < number) × (number ≤ 1026) }
        ensures { FateGiven (of_shape (shape_of (items_of self.now.types.words.now) request (number - 1)) (number - 1) children) result }
    {
        match self.shape(request, number) {
            Shape::Known(_, _) => Fate::Stays(number),
            Shape::Leaf => {
                if children {
                    return Fate::Wrong(11);
                }
                Fate::Stays(number)
            }
            Shape::NotStrict => Fate::Wrong(10),
        }
    }
}
