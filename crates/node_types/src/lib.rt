// What becomes of a node in typing: where a schema's lines stand, what a type says of fields, and the type of a root or a field.
#![tactic(auto)]

mod fate;
mod places;
mod shape;
mod tables;

pub use fate::Fate;
pub use places::Places;
pub use tables::SchemaTables;
