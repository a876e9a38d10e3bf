// A line of a schema's text as an item.
ghost use Rattle.std.specs.Prelude.{◌≡◌, [], ◌∷◌};
ghost use Rattle.rules.specs.Text.{fields_of};
ghost use Rattle.rules.specs.Schema.{item_of, pair_of, value_of};
ghost use Rattle.text.specs.Answers.{number_of};
ghost use Rattle.schema_text.specs.Fields.{item_read, named_by, fields_after_kind, type_by_fields, KindEnds};

use schema::Item;
use text::{field_end, is_letter, letter_place, read_decimal, read_names};

// The names of an entity type: the first, and 65,536 more where it is not the only one.
fn names(more: &[u8]) -> Option<u64>
    ensures { number_of result ≡ named_by (fields_of more.now) }
{
    let mut first = [0u64; 1];
    let count = read_names(more, &mut first)?;
    if count == 1 {
        return Some(first[0]);
    }
    Some(first[0] + 0x1_0000)
}

// What a type of a kind has that is followed by more: a set its element type, an entity type its names.
#[tactic(auto, using(crate::specs::LineLaws::more_names, crate::specs::LineLaws::more_one, crate::specs::LineLaws::more_others, crate::specs::LineLaws::more_none))]
fn valued(kind: u64, more: &[u8]) -> Option<u64>
    ensures { number_of result ≡ value_of kind (fields_of more.now) }
{
    if kind == Item::ENTITY {
        return names(more);
    }
    if kind != Item::SET {
        return None;
    }
    if field_end(more, 0).is_some() {
        return None;
    }
    read_decimal(more)
}

// What a type of a kind has, by what stands behind the kind: nothing, or a tab and more. Without more it is 0, where the kind asks for none.
fn value_of(kind: u64, behind: &[u8]) -> Option<u64>
    ensures { number_of result ≡ value_of kind (fields_after_kind behind.now) }
{
    if let [_, more @ ..] = behind {
        return valued(kind, more);
    }
    match kind {
        Item::SET | Item::ENTITY => None,
        0..=Item::LAST => Some(0),
        _ => None,
    }
}

// Where the kind of a type ends: at a tab, or where the line ends.
#[tactic(auto, using(crate::specs::LineLaws::kind_ends))]
fn kind_end(rest: &[u8]) -> usize
    ensures { KindEnds rest.now result }
{
    field_end(rest, 0).unwrap_or(rest.len())
}

// A type, by its number and what the line has from the kind on.
fn typed(number: &[u8], rest: &[u8]) -> Option<Item>
    ensures { item_read result ≡ type_by_fields number.now (fields_of rest.now) }
{
    let end = kind_end(rest);
    let key = read_decimal(number)?;
    let tag = read_decimal(&rest[..end])?;
    let value = value_of(tag, &rest[end..])?;
    Some(Item { tag, value, key })
}

// An attribute, a literal or an action, by its letter `F`, `L` or `C`, with its type.
fn pair(word: &[u8], left: &[u8], right: &[u8]) -> Option<Item>
    ensures { item_read result ≡ pair_of word.now left.now right.now }
{
    let place = letter_place(b"FLC", word)?;
    let key = read_decimal(left)?;
    let value = read_decimal(right)?;
    Some(Item {
        tag: Item::ATTRIBUTE_LINE + place as u64,
        value,
        key,
    })
}

// An entity type, by its name.
#[tactic(auto, unfolding(rules::specs::Schema::item_of))]
fn entity(word: &[u8], name: &[u8]) -> Option<Item>
    ensures { item_read result ≡ item_of (word.now ∷ name.now ∷ []) }
{
    if !is_letter(word, b'E') {
        return None;
    }
    let key = read_decimal(name)?;
    Some(Item {
        tag: Item::ENTITY_LINE,
        value: 0,
        key,
    })
}

// The item of a line, by its fields.
pub fn parse(line: &[u8]) -> Option<Item>
    ensures { item_read result ≡ item_of (fields_of line.now) }
{
    let word_end = field_end(line, 0)?;
    let word = &line[..word_end];
    let second = word_end + 1;
    let Some(second_end) = field_end(line, second) else {
        return entity(word, &line[second..]);
    };
    let left = &line[second..second_end];
    let third = second_end + 1;
    let right = &line[third..];
    if is_letter(word, b'T') {
        return typed(left, right);
    }
    if field_end(line, third).is_some() {
        return None;
    }
    pair(word, left, right)
}
