// `full_type_required`: which path takes which type. The types that wrapped paths have to meet wait on a stack, that of the next on top.
#![tactic(auto)]

ghost use Rattle.std.specs.Prelude.{◌≡◌, map, reverse, ◌+◌, ◌*◌, ◌^◌, ◌<◌, ◌≤◌, length, drop};
ghost use Rattle.rules.specs.Schema.{attributes_of};
ghost use Rattle.rules.specs.Paths.{Fields, has_all, attribute_type, add_access_path, type_to_access_trie, add_taken};
ghost use Rattle.rules.specs.TypeLaws.{Ascends};
ghost use Rattle.rows.specs.States.{rows_in};
ghost use Rattle.schema.specs.Items.{items_of};
ghost use Rattle.wrapped_paths.specs.Code.{names_in};
ghost use Rattle.wrapped_paths.specs.Turns.{Noted};
ghost use Rattle.wrapped_paths.specs.declared.WrappedAccessPaths.TheVariants.{RecordLiteral as RecordHead};
ghost use Rattle.path_tries.specs.Nodes.{Became};
ghost use Rattle.full_types.specs.Pairs.{pair_place, pair_type, AllPairs, taken_at, DeepBy, TypedPath, TypedLeaf, TypedPairs};
ghost use Rattle.full_types.specs.Required.{type_or, field_types, set_awaits, StackedBy, RecordStacked, PathsStacked, Meeting, pairs_for, PairRoom, PairsRoom, RequiredAt};

use path_tries::{FEW, PATH, add_access_path, read_path};
use rows::Kind;
use schema::Item;
use type_table::{Types, attributes_end, size_at, type_named, type_to_access_trie};
use wrapped_paths::{WrappedAccessPaths, measure, name_place, steps_at};

// A path's place and the type that it takes.
#[derive(Drop)]
struct Pair {
    place: usize,
    t: u64,
}

// What wrapped paths and a type give: the place after them, and so many pairs of a path and a type.
#[derive(Drop)]
pub struct Required {
    pub end: usize,
    pub pairs: usize,
}

// The number past all types that waits for a field which its record type has not.
const PASSED_OVER: u64 = 1_024;

impl Pair {
    // What a word says.
    fn of(word: u64) -> Pair
        ensures { (result.place ≡ pair_place word) × (result.t ≡ pair_type word) }
    {
        Pair {
            place: (word / 1_024) as usize,
            t: word % 1_024,
        }
    }

    // The word that says it.
    fn word(self) -> u64
        requires { (self.place < 2 ^ 53) × (self.t < 1024) }
        ensures { result ≡ self.place * 1024 + self.t }
    {
        self.place as u64 * 1_024 + self.t
    }
}

// Whether all attributes of a record type are among the names of a literal.
fn has_all(attributes: &[u64], names: &[u16]) -> bool
    ensures { (fields : Fields) → names.now ≡ names_in fields → result ≡ has_all fields (items_of attributes.now) }
{
    for attribute in attributes {
        if name_place(names, Item::from(*attribute).key).is_none() {
            return false;
        }
    }
    true
}

// The type that attributes give a field; one that they have not is passed over.
fn field_type(attributes: &[u64], name: u64) -> u64
    requires { Ascends 0 (items_of attributes.now) }
    ensures { result ≡ type_or (attribute_type name (items_of attributes.now)) }
{
    let number = type_named(attributes, name);
    if number == 0 {
        return PASSED_OVER;
    }
    number - 1
}

// The types of a record literal's fields wait, that of its first name on top; answers how many wait then.
fn await_fields(attributes: &[u64], names: &[u16], waiting: &mut [u64], left: usize) -> usize
    requires { Ascends 0 (items_of attributes.now) × (left + length names.now ≤ length waiting.old) }
    ensures { Noted waiting.old left (reverse (field_types (items_of attributes.now) names.now)) waiting.new result }
{
    let mut more = left;
    let mut i = names.len();
    while 0 < i {
        i -= 1;
        waiting[more] = field_type(attributes, u64::from(names[i]));
        more += 1;
    }
    more
}

// The record literal at a place, of so many fields, against a type: it needs a record type and every attribute of it.
fn await_record(
    code: &[u16],
    at: usize,
    fields: usize,
    types: &Types<'_>,
    t: u64,
    waiting: &mut [u64],
    left: usize,
) -> Option<usize>
    requires { Meeting code.now at (RecordHead fields) types.now t waiting.old left }
    ensures { RecordStacked code.now (items_of types.now.words.now) at t waiting.old left waiting.new result }
{
    let place = size_at(types.table, t).place;
    if Item::from(types.words[place]).tag != Item::RECORD {
        return None;
    }
    let first = place + 1;
    let end = attributes_end(types.words, first);
    let names = at + 1;
    let from = names + fields;
    if !has_all(&types.words[first..end], &code[names..from]) {
        return None;
    }
    Some(await_fields(&types.words[first..end], &code[names..from], waiting, left))
}

// A set literal against a type: it needs a set type, whose element type waits.
fn await_set(types: &Types<'_>, t: u64, waiting: &mut [u64], left: usize) -> Option<usize>
    requires { (t < types.now.count) × (left < length waiting.old) }
    ensures { StackedBy (set_awaits (items_of types.now.words.now) t) waiting.old left waiting.new result }
{
    let place = size_at(types.table, t).place;
    let item = Item::from(types.words[place]);
    if item.tag != Item::SET {
        return None;
    }
    waiting[left] = item.value;
    Some(left + 1)
}

// The head at a place against a type: the types of what it wraps wait.
fn await_wrapped(
    code: &[u16],
    at: usize,
    head: WrappedAccessPaths,
    types: &Types<'_>,
    t: u64,
    waiting: &mut [u64],
    left: usize,
) -> Option<usize>
    requires { Meeting code.now at head types.now t waiting.old left }
    ensures { PathsStacked code.now (items_of types.now.words.now) at t waiting.old left waiting.new result }
{
    match head {
        WrappedAccessPaths::Empty | WrappedAccessPaths::AccessPath(_, _) => Some(left),
        WrappedAccessPaths::Union => {
            waiting[left] = t;
            waiting[left + 1] = t;
            Some(left + 2)
        }
        WrappedAccessPaths::SetLiteral => await_set(types, t, waiting, left),
        WrappedAccessPaths::RecordLiteral(fields) => {
            await_record(code, at, fields, types, t, waiting, left)
        }
    }
}

// Notes a head's place and type behind so many pairs, if it is that of a path, and answers how many there are then.
fn note_pair(head: WrappedAccessPaths, at: usize, t: u64, pairs: &mut [u64], count: usize) -> usize
    requires { PairRoom at t pairs.old count }
    ensures { Noted pairs.old count (pairs_for head at t) pairs.new result }
{
    match head {
        WrappedAccessPaths::AccessPath(_, _) => {
            pairs[count] = Pair { place: at, t }.word();
            count + 1
        }
        _ => count,
    }
}

// The wrapped paths at a place against a type: each head in turn meets the type that waits for it.
pub fn full_type_required(
    code: &[u16],
    at: usize,
    types: &Types<'_>,
    t: u64,
    pairs: &mut [u64],
) -> Option<Required>
    requires { (t < types.now.count) × PairsRoom code.now at pairs.old }
    ensures { RequiredAt code.now (items_of types.now.words.now) t at pairs.new result }
{
    // No more types wait than there may be paths.
    let mut waiting = [t; WrappedAccessPaths::PATHS];
    let mut from = at;
    let mut left: usize = 1;
    let mut count = 0;
    while 0 < left {
        left -= 1;
        let next = waiting[left];
        if next == PASSED_OVER {
            from = measure(code, from, 1).end;
        } else {
            let head = WrappedAccessPaths::of(code[from]);
            let more = await_wrapped(code, from, head, types, next, &mut waiting, left)?;
            count = note_pair(head, from, next, pairs, count);
            from += head.words();
            left = more;
        }
    }
    Some(Required {
        end: from,
        pairs: count,
    })
}

// Whether some path with the trie of its type below it would exceed the steps of a position.
pub fn is_any_too_deep(code: &[u16], table: &[u64], pairs: &[u64]) -> bool
    requires { AllPairs code.now 1024 pairs.now × (length table.now ≡ 1024) }
    ensures { DeepBy code.now table.now pairs.now result }
{
    for word in pairs {
        let pair = Pair::of(*word);
        if Kind::STEPS < steps_at(code, pair.place) + size_at(table, pair.t).depth {
            return true;
        }
    }
    false
}

// Merges a path with the trie of a type as its leaf into a trie by way of a buffer, and answers whether it stays within the limit of nodes.
fn add_typed_by(trie: &mut [u64], path: &[u64], types: &Types<'_>, t: u64, leaf: &mut [u64]) -> bool
    requires { TypedLeaf trie.old path.now types.now t leaf.old }
    ensures { Became (add_access_path (rows_in trie.old) path.now (type_to_access_trie (items_of types.now.words.now) t)) trie.new result }
{
    let end = type_to_access_trie(types.words, types.table, t, 0, leaf, 0);
    add_access_path(trie, path, false, &leaf[..end])
}

// Merges a path with the trie of a type as its leaf into a trie, and answers whether it stays within the limit of nodes.
fn add_typed(trie: &mut [u64], path: &[u64], types: &Types<'_>, t: u64) -> bool
    requires { TypedPath trie.old path.now types.now t }
    ensures { Became (add_access_path (rows_in trie.old) path.now (type_to_access_trie (items_of types.now.words.now) t)) trie.new result }
{
    let nodes = size_at(types.table, t).nodes;
    if Kind::CONTRIBUTION_NODES < nodes {
        return false;
    }
    if nodes <= FEW as u64 {
        let mut leaf = [0u64; FEW];
        return add_typed_by(trie, path, types, t, &mut leaf);
    }
    let mut leaf = [0u64; 1_024];
    add_typed_by(trie, path, types, t, &mut leaf)
}

// Merges all paths with the tries of their types into a trie, and answers whether it stays within the limit of nodes.
pub fn add_taken(trie: &mut [u64], code: &[u16], types: &Types<'_>, pairs: &[u64]) -> bool
    requires { TypedPairs trie.old code.now types.now pairs.now }
    ensures { Became (add_taken (items_of types.now.words.now) (rows_in trie.old) (map (taken_at code.now) pairs.now)) trie.new result }
{
    let mut path = [0u64; PATH];
    for word in pairs {
        let pair = Pair::of(*word);
        let steps = read_path(code, pair.place, &mut path);
        if !add_typed(trie, &path[..steps], types, pair.t) {
            return false;
        }
    }
    true
}
