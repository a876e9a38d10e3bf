// Merging in lent words (`merge_values`, `merge_entities`): one pass over two runs of rows, and the parents compared.
#![tactic(auto)]

ghost use Rattle.std.specs.Prelude.{◌≡◌, ◌+◌, ◌≤◌, ◌<◌, length};
ghost use Rattle.std.proofs.Math.Option.{none};
ghost use Rattle.rules.specs.Tries.{next};
ghost use Rattle.rules.specs.ValueRows.{placed_row, inside_at, inside_after, merge_rows};
ghost use Rattle.values.specs.ValueWords.{value_row_in, value_rows_of};
ghost use Rattle.merging.specs.Merges.{inside_in, order_of, Chosen, alone_turn, MergeTurned, MergedInto, merged_entity_rows};

use std::cmp::Ordering;
use values::ValueRow;

// A turn of the pass: the row that it takes, how many rows of each run are passed then, and the set that the pass is inside then.
#[derive(Clone, Copy, PartialEq, Eq, Debug)]
struct Turn {
    word: u64,
    left: usize,
    right: usize,
    inside: Option<u64>,
}

// The set that the pass is inside at a row, by its depth. A row no deeper than the set ends it.
fn inside_at(inside: Option<u64>, row: ValueRow) -> Option<u64>
    ensures { inside_in result ≡ inside_at (inside_in inside) (value_row_in row.word) }
{
    let depth = inside?;
    if depth < row.depth() { inside } else { None }
}

// The set that the pass is inside after a row that both have: a set's row opens that set, unless it lies inside one.
fn inside_after(inside: Option<u64>, row: ValueRow) -> Option<u64>
    ensures { inside_in result ≡ inside_after (inside_in inside) (value_row_in row.word) }
{
    let here = inside_at(inside, row);
    if here.is_some() {
        return here;
    }
    if row.kind() == ValueRow::SET {
        return Some(row.depth());
    }
    None
}

// How two next rows are ordered: the deeper comes first, and at one depth the one with the smaller key.
fn row_order(x: ValueRow, y: ValueRow) -> Ordering
    ensures { result ≡ order_of (next (placed_row (value_row_in x.word)) (placed_row (value_row_in y.word))) }
{
    let x_depth = x.depth();
    let y_depth = y.depth();
    if y_depth < x_depth {
        return Ordering::Less;
    }
    if x_depth < y_depth {
        return Ordering::Greater;
    }
    let x_key = x.key();
    let y_key = y.key();
    if x_key < y_key {
        return Ordering::Less;
    }
    if y_key < x_key {
        return Ordering::Greater;
    }
    Ordering::Equal
}

// Which run has the next row, where i and j rows are passed and some are left: the left where it is `Less`, the right where it is `Greater`,
// both where it is `Equal`.
fn next_order(left: &[u64], right: &[u64], i: usize, j: usize) -> Ordering
    requires { (i ≤ length left.now) × (j ≤ length right.now) × (i + j < length left.now + length right.now) }
    ensures { Chosen left.now right.now i j result }
{
    if left.len() <= i {
        return Ordering::Greater;
    }
    if right.len() <= j {
        return Ordering::Less;
    }
    row_order(ValueRow { word: left[i] }, ValueRow { word: right[j] })
}

// A row that one side alone has is taken outside a set; inside one the two differ.
fn take_alone(word: u64, left: usize, right: usize, inside: Option<u64>) -> Option<Turn>
    ensures { result ≡ alone_turn word left right (inside_at (inside_in inside) (value_row_in word)) }
{
    if inside_at(inside, ValueRow { word }).is_some() {
        return None;
    }
    Some(Turn {
        word,
        left,
        right,
        inside: None,
    })
}

// A turn: the next row of either run, or of both where they have the same; none where the two differ.
fn next_turn(left: &[u64], right: &[u64], i: usize, j: usize, inside: Option<u64>) -> Option<Turn>
    requires { (i ≤ length left.now) × (j ≤ length right.now) × (i + j < length left.now + length right.now) }
    ensures { MergeTurned left.now right.now i j inside result }
{
    match next_order(left, right, i, j) {
        Ordering::Less => take_alone(left[i], i + 1, j, inside),
        Ordering::Greater => take_alone(right[j], i, j + 1, inside),
        Ordering::Equal => {
            let word = left[i];
            if word != right[j] {
                return None;
            }
            Some(Turn {
                word,
                left: i + 1,
                right: j + 1,
                inside: inside_after(inside, ValueRow { word }),
            })
        }
    }
}

// Two records' rows merged in one pass: the next row of either, again and again (`merge_values`). Answers the place after the merged rows,
// or none where the two differ (13).
pub fn merge_values(left: &[u64], right: &[u64], out: &mut [u64], to: usize) -> Option<usize>
    requires { to + (length left.now + length right.now) ≤ length out.old }
    ensures { MergedInto (merge_rows none (value_rows_of left.now) (value_rows_of right.now)) out.old to out.new result }
{
    let mut i = 0;
    let mut j = 0;
    let mut inside: Option<u64> = None;
    let mut at = to;
    while i + j < left.len() + right.len() {
        let turn = next_turn(left, right, i, j, inside)?;
        out[at] = turn.word;
        at += 1;
        i = turn.left;
        j = turn.right;
        inside = turn.inside;
    }
    Some(at)
}

// Two answers for one entity merged: the parents must be equal, and the attributes are merged (`merge_entities`).
pub fn merge_entities(
    left_parents: &[u64],
    left: &[u64],
    right_parents: &[u64],
    right: &[u64],
    out: &mut [u64],
    to: usize,
) -> Option<usize>
    requires { to + (length left.now + length right.now) ≤ length out.old }
    ensures { MergedInto (merged_entity_rows left_parents.now left.now right_parents.now right.now) out.old to out.new result }
{
    if left_parents != right_parents {
        return None;
    }
    merge_values(left, right, out, to)
}
