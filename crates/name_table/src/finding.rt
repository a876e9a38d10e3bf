// The name of an id in a table's words.
ghost use Rattle.std.specs.Prelude.{◌≡◌, ◌≤◌, length};
ghost use Rattle.name_table.specs.Outcomes.{name_found, Inside};

use crate::named::Named;
use words::search_key;

// Where in the text the name of a key stands, from a place to another, if there is one. The key is 65,536 times a kind (0 entity type, 1
// entity, 2 field) and an id; the words are those that `read_names` made of the text.
pub fn find_name(text: &[u8], names: &[u64], key: u64) -> Option<(usize, usize)>
    ensures value { result ≡ name_found text.now names.now key }
    ensures inside { Inside text.now result }
{
    let (count, words) = names.split_first()?;
    let words = words.get(..*count as usize)?;
    let place = search_key(words, key).ok()?;
    let named = Named::of(words[place]);
    let to = named.from + named.size;
    if text.len() < to {
        return None;
    }
    Some((named.from, to))
}
