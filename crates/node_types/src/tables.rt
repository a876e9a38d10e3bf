// A schema as typing looks things up in it.
ghost use Rattle.std.specs.Prelude.{◌≡◌};
ghost use Rattle.node_types.specs.Named.{EntityTable, PlacesFound};

use crate::places::Places;
use type_table::Types;

// Its words with the table of its types; the table of its entity types; and where its literals and actions stand.
#[derive(Drop)]
pub struct SchemaTables<'a> {
    pub types: Types<'a>,
    pub entities: &'a [u64],
    pub places: Places,
    pub ghost entity_table: { EntityTable types.words.now entities.now },
    pub ghost places_found: { PlacesFound types.words.now places },
}

impl<'a> SchemaTables<'a> {
    pub fn new(types: Types<'a>, entities: &'a [u64], places: Places) -> SchemaTables<'a>
        requires entity_table { EntityTable types.words.now entities.now }
        requires places_found { PlacesFound types.words.now places }
        ensures { result.types.words.now ≡ types.entry.words.now }
    {
        SchemaTables {
            types,
            entities,
            places,
        }
    }
}
