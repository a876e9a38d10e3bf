// A line of the listing as a row, read in one pass.
ghost use Rattle.std.specs.Prelude.{◌≡◌, [], ◌∷◌, ◌≤◌, ◌<◌, length, drop};
ghost use Rattle.rules.specs.Text.{bytes, lines_of, fields_of};
ghost use Rattle.text.specs.Answers.{number_of};
ghost use Rattle.listing_lines.specs.Lines.{row_read, row_from, row_at, ended_at, kind_in, node_row};

use text::{LF, TAB, number_at};

// What a line is read as: a row's depth, step and mark, and the place of the line's LF.
#[derive(Clone, Copy, PartialEq, Eq, Debug)]
pub struct ParsedRow {
    pub depth: u64,
    pub step: u64,
    pub marked: bool,
    pub end: usize,
}

// The kind of the step that is the field at a place, with a tab behind it: its letter's place in f p a r c e.
#[tactic(auto, using(crate::specs::LineLaws::kind_left, crate::specs::LineLaws::kind_short, crate::specs::LineLaws::kind_untabbed, crate::specs::LineLaws::kind_past), unfolding(rules::specs::Listing::place_in))]
fn step_kind(text: &[u8], at: usize) -> Option<u64>
    ensures { number_of result ≡ kind_in (fields_of (drop at text.now)) }
{
    let [letter, tab, ..] = text.get(at..)? else {
        return None;
    };
    if *tab != TAB {
        return None;
    }
    match letter {
        b'f' => Some(0),
        b'p' => Some(1),
        b'a' => Some(2),
        b'r' => Some(3),
        b'c' => Some(4),
        b'e' => Some(5),
        _ => None,
    }
}

// The row of an entry, by what stands behind its letter up to the line's LF.
fn entry(text: &[u8], at: usize) -> Option<ParsedRow>
    ensures { row_read result ≡ row_from (bytes "A" ∷ []) at (lines_of (drop at text.now)) }
{
    let (principal, principal_end) = number_at(text, at, TAB)?;
    let (action, action_end) = number_at(text, principal_end + 1, TAB)?;
    let (resource, end) = number_at(text, action_end + 1, LF)?;
    Some(ParsedRow {
        depth: 0,
        step: (principal * 0x1_0000 + action) * 0x1_0000 + resource,
        marked: false,
        end,
    })
}

// A node's row, where it is of its form: a root at depth 1, an id for fields and literal entities only, a mark of 0 or 1.
fn node_row(depth: u64, kind: u64, id: u64, mark: u64, end: usize) -> Option<ParsedRow>
    requires { (kind ≤ 5) × (id ≤ 65535) }
    ensures { row_read result ≡ ended_at end (node_row depth kind id mark) }
{
    if depth == 0 {
        return None;
    }
    if 1 < mark {
        return None;
    }
    if depth == 1 && kind == 0 {
        return None;
    }
    if id != 0 && kind != 0 && kind != 5 {
        return None;
    }
    Some(ParsedRow {
        depth,
        step: kind * 0x1_0000 + id,
        marked: mark == 1,
        end,
    })
}

// The row of a node, by what stands behind its letter up to the line's LF.
fn node(text: &[u8], at: usize) -> Option<ParsedRow>
    ensures { row_read result ≡ row_from (bytes "N" ∷ []) at (lines_of (drop at text.now)) }
{
    let (depth, depth_end) = number_at(text, at, TAB)?;
    let step = depth_end + 1;
    let kind = step_kind(text, step)?;
    let (id, id_end) = number_at(text, step + 2, TAB)?;
    let (mark, end) = number_at(text, id_end + 1, LF)?;
    node_row(depth, kind, id, mark, end)
}

// The row of the line that begins at a place of a text, by its letter and what stands behind it.
pub fn parse(text: &[u8], at: usize) -> Option<ParsedRow>
    requires { at < length text.now }
    ensures { row_read result ≡ row_at text.now at }
{
    let [letter, tab, ..] = &text[at..] else {
        return None;
    };
    if *tab != TAB {
        return None;
    }
    match letter {
        b'A' => entry(text, at + 2),
        b'N' => node(text, at + 2),
        _ => None,
    }
}
