// Scans of a run of rows: a node's children, a field among values, and the elements of a set.
ghost use Rattle.std.specs.Prelude.{◌≡◌, ◌≤◌, length, drop};
ghost use Rattle.rules.specs.Loading.{has_child};
ghost use Rattle.rules.specs.WalkRows.{field_row, ids_at};
ghost use Rattle.rows.specs.States.{rows_of};
ghost use Rattle.values.specs.ValueWords.{value_rows_of};
ghost use Rattle.row_walk.specs.RowWalks.{child_test, ids_if_held};

use rows::Row;
use values::ValueRow;

// Whether a step is a field, or whether it is a root.
fn is_child(step: u64, fields: bool) -> bool
    ensures { result ≡ child_test fields step }
{
    if step < 0x1_0000 {
        return fields;
    }
    !fields
}

// Whether a node of a depth, with the rows from a place on behind it, has a child that is a field, or one that is a root.
pub fn has_child(nodes: &[u64], from: usize, depth: u64, fields: bool) -> bool
    ensures { result ≡ has_child (child_test fields) depth (rows_of (drop from nodes.now)) }
{
    for i in from..nodes.len() {
        let row = Row { word: nodes[i] };
        let there = row.depth();
        if there <= depth {
            return false;
        }
        if there - 1 == depth {
            if is_child(row.step(), fields) {
                return true;
            }
        }
    }
    false
}

// The place of a field's row, behind the row of its record, or the length where the field is absent.
pub fn field_row(values: &[u64], from: usize, depth: u64, f: u64) -> usize
    ensures values_value { value_rows_of (drop result values.now) ≡ field_row depth f (value_rows_of (drop from values.now)) }
    ensures upper_bound { result ≤ length values.now }
{
    for i in from..values.len() {
        let row = ValueRow { word: values[i] };
        let there = row.depth();
        if there < depth {
            return values.len();
        }
        if there == depth {
            if f == row.key() {
                return i;
            }
        }
    }
    values.len()
}

// Whether the elements of a set, behind its row, are entity ids only.
pub fn holds_ids(values: &[u64], from: usize, depth: u64) -> bool
    ensures { ids_at depth (value_rows_of (drop from values.now))
        ≡ ids_if_held result depth (value_rows_of (drop from values.now)) }
{
    for i in from..values.len() {
        let row = ValueRow { word: values[i] };
        let there = row.depth();
        if there < depth {
            return true;
        }
        if there == depth {
            if row.kind() != ValueRow::ENTITY {
                return false;
            }
        }
    }
    true
}
