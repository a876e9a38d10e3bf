// Typing (`to_typed`): each node of a manifest gets the type that a schema gives it, and children that a type lacks are dropped. One walk
// over the rows, with the type of the last row at each depth.
#![tactic(auto)]

ghost use Rattle.std.specs.Prelude.{◌≡◌, true, [], ◌≤◌, ◌<◌, length};
ghost use Rattle.rules.specs.Typing.{typed as typed_rows};
ghost use Rattle.rules.specs.Tries.{ordered};
ghost use Rattle.rows.specs.States.{all_words, rows_of, storing};
ghost use Rattle.schema.specs.Items.{items_of, good_items};
ghost use Rattle.type_annotations.specs.Outcomes.{typed_in, TypedInto};

use node_types::{Fate, Places, SchemaTables};
use rows::{Kind, Row};
use schema::Schema;
use type_table::{TypeSize, Types, fill_table};
use words::Refusal;

// Writes the rows that stay into `out`, from place 1 on, and answers how many they are; a refusal is at a node. For each depth `above` has
// the type of the last row there, as a row has it: 0 where it is dropped; an entry stands there with 1, since it stays.
fn type_rows(schema: &SchemaTables, rows: &[u64], out: &mut [u64]) -> Result<u64, Refusal>
    requires in_bounds { length rows.now < length out.old }
    requires rows_value { (all_words rows.now ≡ true) × (ordered [] (rows_of rows.now) ≡ true) }
    ensures { TypedInto (typed_rows (items_of schema.now.types.words.now) (rows_of rows.now)) out.new result }
{
    let mut above = [0u64; 25];
    let mut request = 0;
    let mut entries = 0;
    let mut count = 0;
    for i in 0..rows.len() {
        let row = Row { word: rows[i] };
        let depth = row.depth() as usize;
        if depth == 0 {
            request = row.step();
            entries += 1;
            count += 1;
            out[count] = row.word;
            above[depth] = 1;
        } else {
            let up = depth - 1;
            match schema.fate_at(request, above[up], rows, i) {
                Fate::Stays(number) => {
                    count += 1;
                    out[count] = row.with_type(number).word;
                    above[depth] = number;
                }
                Fate::Dropped => {
                    above[depth] = 0;
                }
                Fate::Wrong(number) => {
                    return Err(Refusal {
                        number,
                        place: (i - entries) as u64,
                    });
                }
            }
        }
    }
    Ok(count as u64)
}

// The rows typed by a schema's words; a refusal leaves the output as it was.
fn type_manifest(words: &[u64], rows: &[u64], out: &mut [u64]) -> Result<(), Refusal>
    requires words_value { (good_items words.now ≡ true) × ((length words.now < 142337) × (length rows.now ≤ 4160)) }
    requires rows_value { (all_words rows.now ≡ true) × ((ordered [] (rows_of rows.now) ≡ true) × (4161 ≤ length out.old)) }
    ensures { (result ≡ (storing out.old (typed_rows (items_of words.now) (rows_of rows.now))).reply) × (out.new ≡ (storing out.old (typed_rows (items_of words.now) (rows_of rows.now))).buffer) }
{
    let mut table = [0u64; TypeSize::TYPES];
    let count = fill_table(words, &mut table);
    let mut entities = [0u64; Places::ENTITIES];
    let places = Places::of(words, &mut entities);
    let types = Types {
        words,
        table: &table,
        count,
    };
    let tables = SchemaTables::new(types, &entities[..places.entities], places);
    let mut kept = [0u64; 4_161];
    let count = type_rows(&tables, rows, &mut kept)?;
    kept[0] = count;
    words::copy_rows(&kept, out);
    Ok(())
}

// Types a manifest by a schema; a refusal leaves the output as it was.
pub fn to_typed(schema: &[u64], manifest: &[u64], out: &mut [u64]) -> Result<(), Refusal>
    ensures { (result ≡ (typed_in schema.now manifest.now out.old).reply) × (out.new ≡ (typed_in schema.now manifest.now out.old).buffer) }
{
    if schema.len() < Schema::WORDS {
        return Err(Refusal::SHORT);
    }
    if manifest.len() < Kind::Manifest.words() {
        return Err(Refusal::SHORT);
    }
    if out.len() < Kind::Manifest.words() {
        return Err(Refusal::SHORT);
    }
    if !schema::is_lawful(schema) {
        return Err(Refusal::UNLAWFUL);
    }
    if !rows::is_lawful(Kind::Manifest, manifest) {
        return Err(Refusal::UNLAWFUL);
    }
    let end = schema[0] as usize + 1;
    let last = manifest[0] as usize + 1;
    type_manifest(&schema[1..end], &manifest[1..last], out)
}
