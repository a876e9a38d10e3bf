// The types of a schema: where each stands, how deep its trie is and how many nodes that has, and the trie itself.
#![tactic(auto)]

ghost use Rattle.std.specs.Prelude.{◌≡◌, true, map, ◌+◌, ◌%◌, ◌<◌, ◌≤◌, length, take, drop, get_or};
ghost use Rattle.rules.specs.Paths.{deeper};
ghost use Rattle.rules.specs.Schema.{last_type, attributes_of};
ghost use Rattle.rules.specs.TypeLaws.{types_in, deepest};
ghost use Rattle.rows.specs.Words.{word_of, number_for};
ghost use Rattle.schema.specs.Items.{items_of, good_items};
ghost use Rattle.words.specs.Runs.{Wrote};
ghost use Rattle.type_table.specs.Tables.{size_word, type_place, type_depth, type_nodes, TypeMeasured, Tabled, attribute_at, type_rows, value_named};

mod types;

use rows::{Kind, Row};
use schema::Item;
pub use types::Types;
use words::search_key;

// A type's place among the schema's words, and the depth and nodes of its trie, both stopping one past their limit.
#[derive(Clone, Copy, PartialEq, Eq, Debug)]
pub struct TypeSize {
    pub place: usize,
    pub depth: u64,
    pub nodes: u64,
}

impl From<u64> for TypeSize {
    fn from(word: u64) -> TypeSize
        ensures { (result.place ≡ type_place word) × ((result.depth ≡ type_depth word) × (result.nodes ≡ type_nodes word)) }
    {
        TypeSize {
            place: (word / 0x10_0000) as usize,
            depth: word / 0x1000 % 256,
            nodes: word % 0x1000,
        }
    }
}

impl TypeSize {
    // As many types as a schema may have.
    pub const TYPES: usize = 1_024;

    fn word(self) -> u64
        requires { (self.place < 262144) × ((self.depth < 256) × (self.nodes < 4096)) }
        ensures { result ≡ size_word self }
    {
        self.nodes + self.depth * 0x1000 + self.place as u64 * 0x10_0000
    }
}

// The size of a type in a table.
pub fn size_at(table: &[u64], t: u64) -> TypeSize
    requires { t < length table.now }
    ensures { (result.place ≡ type_place (get_or table.now t 0)) × ((result.depth ≡ type_depth (get_or table.now t 0)) × (result.nodes ≡ type_nodes (get_or table.now t 0))) }
{
    let at = t as usize;
    TypeSize::from(table[at])
}

// Whether a word is an attribute.
pub fn is_attribute(words: &[u64], at: usize) -> bool
    ensures { result ≡ attribute_at words.now at }
{
    if words.len() <= at {
        return false;
    }
    Item::from(words[at]).tag == Item::ATTRIBUTE_LINE
}

// The place after the attributes that begin at a place.
pub fn attributes_end(words: &[u64], first: usize) -> usize
    requires { first ≤ length words.now }
    ensures { result ≡ first + length (attributes_of (items_of (drop first words.now))) }
{
    let mut at = first;
    while is_attribute(words, at) {
        at += 1;
    }
    at
}

// The type that a run of lines gives a key, as a row has it: 0 for none, t + 1 for type t.
pub fn type_named(run: &[u64], key: u64) -> u64
    ensures { result ≡ number_for (value_named run.now key) }
{
    let Ok(place) = search_key(run, key) else {
        return 0;
    };
    Item::from(run[place]).value + 1
}

// The size of the type at a place, by the sizes of the lower types.
fn type_size(words: &[u64], place: usize, table: &[u64]) -> TypeSize
    requires words_value { (good_items words.now ≡ true) × (length words.now < 142337) }
    requires place_in_bounds { (place < length words.now) × (get_or words.now place 0 % 16 ≤ last_type) }
    requires tabled { Tabled words.now table.now (types_in (items_of (take place words.now))) }
    ensures type_measured { TypeMeasured words.now (types_in (items_of (take place words.now))) (size_word result) }
    ensures place_bound { (result.place < 262144) × ((result.depth < 256) × (result.nodes < 4096)) }
{
    let mut depth: u64 = 0;
    let mut nodes: u64 = 0;
    let mut at = place + 1;
    while is_attribute(words, at) {
        let below = size_at(table, Item::from(words[at]).value);
        depth = depth.max((1 + below.depth).min(Kind::STEPS + 1));
        nodes = (nodes + 1 + below.nodes).min(Kind::CONTRIBUTION_NODES + 1);
        at += 1;
    }
    TypeSize {
        place,
        depth,
        nodes,
    }
}

// Fills the table of all types, and answers how many there are.
pub fn fill_table(words: &[u64], table: &mut [u64]) -> u64
    requires { (good_items words.now ≡ true) × ((length words.now < 142337) × (length table.old ≡ 1024)) }
    ensures { (result ≡ types_in (items_of words.now)) × Tabled words.now table.new result }
{
    let mut types: u64 = 0;
    for at in 0..words.len() {
        if Item::from(words[at]).tag <= Item::LAST {
            let t = types as usize;
            table[t] = type_size(words, at, table).word();
            types += 1;
        }
    }
    types
}

// `type_to_access_trie`: writes the nodes below a node of a type and a depth, and answers the place after them.
pub fn type_to_access_trie(
    words: &[u64],
    table: &[u64],
    t: u64,
    depth: u64,
    out: &mut [u64],
    to: usize,
) -> usize
    requires words_value { (good_items words.now ≡ true) × Tabled words.now table.now (types_in (items_of words.now)) }
    requires t_bound { t < types_in (items_of words.now) }
    requires t_in_bounds { (to + length (type_rows words.now t) ≤ length out.old) × (depth + deepest (type_rows words.now t) ≤ 24) }
    ensures { Wrote out.old to (map word_of (deeper depth (type_rows words.now t))) out.new result }
{
    let mut at = size_at(table, t).place + 1;
    let mut next = to;
    while is_attribute(words, at) {
        let item = Item::from(words[at]);
        out[next] = Row::node(depth + 1, item.key, false).word;
        next = type_to_access_trie(words, table, item.value, depth + 1, out, next + 1);
        at += 1;
    }
    next
}
