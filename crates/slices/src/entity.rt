// An entity of a slice: its answers merged one after the other, and its ancestors among its parents. The rows are given by their keys.
ghost use Rattle.std.specs.Prelude.{◌≡◌, List, map, ◌+◌, ◌≤◌, length, take, drop};
ghost use Rattle.std.proofs.Math.Option.{none, some};
ghost use Rattle.rules.specs.Values.{Entity};
ghost use Rattle.rules.specs.ValueRows.{ValueRow, merge_rows};
ghost use Rattle.rules.specs.MergeLaws.{merged_of};
ghost use Rattle.rules.specs.Loading.{with_ids};
ghost use Rattle.words.specs.Runs.{Wrote};
ghost use Rattle.values.specs.ValueWords.{value_rows_of, value_word};
ghost use Rattle.slices.specs.Slices.{parent_count, row_count, rows_at, answers_for, row_words, EntityStands, Heard, ids_for};
ghost use Rattle.slices.specs.Keys.{places_of};
ghost use Rattle.slices.specs.Writing.{asks_for, AnswerFound, MayMerge, RowsFit, rows_in, ParentsFit, EntityFit, EntityWritten};

use crate::ids::add_ancestors;
use crate::keys::place_of;
use answers::Head;
use merging::merge_values;
use values::EntityRequest;
use words::copy_words;

// The rows that ask for an entity, by their keys: the words in which answers stand, and the places of the answers to all rows.
#[derive(Clone, Copy)]
pub struct Group<'a> {
    pub words: &'a [u64],
    pub keys: &'a [u64],
    pub places: &'a [u64],
    pub entity: u64,
}

// The words in which sets of ancestor ids stand, and the places of the sets of all rows.
#[derive(Clone, Copy)]
pub struct Ancestors<'a> {
    pub sets: &'a [u64],
    pub places: &'a [u64],
}

// Whether a row asks for an entity and its answer, by its head, is not absent.
fn asks_for(row: u64, head: u64, entity: u64) -> bool
    ensures { result ≡ asks_for row head entity }
{
    if EntityRequest::from(row).id == entity {
        return head != 0;
    }
    false
}

// The place after an entity's head and parents, where its rows start.
fn rows_start(words: &[u64], place: usize) -> usize
    requires { EntityStands words.now place }
    ensures { result ≡ place + 1 + parent_count words.now place }
{
    let head = Head::from(words[place]);
    place + 1 + head.parents
}

// The place after an entity's rows.
fn rows_end(words: &[u64], place: usize) -> usize
    requires { EntityStands words.now place }
    ensures { result ≡ place + 1 + parent_count words.now place + row_count words.now place }
{
    let head = Head::from(words[place]);
    rows_start(words, place) + head.rows
}

// Merges the rows of an answer into those that stand from a place on, and answers how many there are then.
fn merge_more(
    words: &[u64],
    place: usize,
    out: &mut [u64],
    from: usize,
    size: usize,
    scratch: &mut [u64],
) -> usize
    requires { MayMerge words.now place out.old from size scratch.old }
    ensures { (rows : List ValueRow) → merge_rows none (value_rows_of (take size (drop from out.old))) (value_rows_of (rows_at words.now place)) ≡ some rows → Wrote out.old from (map value_word rows) out.new (from + result) }
{
    let start = rows_start(words, place);
    let end = rows_end(words, place);
    let held = from + size;
    let Some(merged) = merge_values(&out[from..held], &words[start..end], scratch, 0) else {
        return size;
    };
    copy_words(&scratch[..merged], out, from);
    merged
}

impl Group<'_> {
    // The place of the first row from `from` on that has an answer, if there is one.
    pub fn next_answer(self, from: usize) -> Option<usize>
        requires { Heard self.words.now self.keys.now (places_of self.places.now self.keys.now) × (from ≤ length self.keys.now) }
        ensures { AnswerFound self.entry.words.now self.entry.keys.now (places_of self.entry.places.now self.entry.keys.now) self.entry.entity from result }
    {
        for k in from..self.keys.len() {
            let place = place_of(self.keys, self.places, k);
            if asks_for(self.keys[k], self.words[place], self.entity) {
                return Some(k);
            }
        }
        None
    }

    // Merges the rows of the answers, writes them from a place on, and answers how many they are.
    fn write_rows(self, out: &mut [u64], from: usize, scratch: &mut [u64]) -> usize
        requires { RowsFit self.words.now self.keys.now (places_of self.places.now self.keys.now) self.entity out.old from scratch.old }
        ensures wrote { (value : Entity) → merged_of (answers_for self.entry.words.now self.entry.keys.now (places_of self.entry.places.now self.entry.keys.now) self.entry.entity) ≡ some value → Wrote out.old from (row_words value) out.new (from + result) }
        ensures upper_bound { result ≤ rows_in (answers_for self.entry.words.now self.entry.keys.now (places_of self.entry.places.now self.entry.keys.now) self.entry.entity) }
    {
        let mut size: usize = 0;
        let mut k: usize = 0;
        while let Some(next) = self.next_answer(k) {
            let place = place_of(self.keys, self.places, next);
            size = merge_more(self.words, place, out, from, size, scratch);
            k = next + 1;
        }
        size
    }

    // Writes the entity's parents, united with the ancestors answered for it, and answers how many they are.
    fn write_parents(
        self,
        ancestors: Ancestors<'_>,
        out: &mut [u64],
        to: usize,
        scratch: &mut [u64],
    ) -> usize
        requires { ParentsFit self.words.now self.keys.now (places_of self.places.now self.keys.now) ancestors.sets.now (places_of ancestors.places.now self.keys.now) self.entity out.old to scratch.old }
        ensures { (value : Entity) → merged_of (answers_for self.entry.words.now self.entry.keys.now (places_of self.entry.places.now self.entry.keys.now) self.entry.entity) ≡ some value → Wrote out.old to (with_ids (ids_for self.entry.keys.now ancestors.entry.sets.now (places_of ancestors.entry.places.now self.entry.keys.now) self.entry.entity) value.parents) out.new (to + result) }
    {
        let Some(first) = self.next_answer(0) else {
            return 0;
        };
        let place = place_of(self.keys, self.places, first);
        let start = place + 1;
        let end = rows_start(self.words, place);
        copy_words(&self.words[start..end], out, to);
        add_ancestors(
            self.keys,
            ancestors.sets,
            ancestors.places,
            self.entity,
            out,
            to,
            end - start,
            scratch,
        )
    }

    // Writes the entity with its answers merged and its ancestors among its parents, and answers the place after it.
    pub fn write_entity(
        self,
        ancestors: Ancestors<'_>,
        out: &mut [u64],
        to: usize,
        scratch: &mut [u64],
    ) -> usize
        requires { EntityFit self.words.now self.keys.now (places_of self.places.now self.keys.now) ancestors.sets.now (places_of ancestors.places.now self.keys.now) self.entity out.old to scratch.old }
        ensures { EntityWritten self.entry.words.now self.entry.keys.now (places_of self.entry.places.now self.entry.keys.now) ancestors.entry.sets.now (places_of ancestors.entry.places.now self.entry.keys.now) self.entry.entity out.old to out.new result }
    {
        let start = to + 1;
        let parents = self.write_parents(ancestors, out, start, scratch);
        let from = start + parents;
        let size = self.write_rows(out, from, scratch);
        let head = Head {
            flag: self.entity,
            parents,
            rows: size,
        };
        out[to] = head.word();
        from + size
    }
}
