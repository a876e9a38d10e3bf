// The value rule at one node (`find_remaining_entities_value`).
ghost use Rattle.std.specs.Prelude.{◌+◌, ◌<◌, length, drop, get_or};
ghost use Rattle.rules.specs.WalkRows.{row_rule, at_node_rows};
ghost use Rattle.rows.specs.Words.{row_in};
ghost use Rattle.rows.specs.States.{rows_of};
ghost use Rattle.values.specs.ValueWords.{value_row_in, value_rows_of};
ghost use Rattle.row_walk.specs.RowWalks.{kept_in, MeansRule};

use crate::scan::{field_row, has_child, holds_ids};
use rows::{Row, StepParts};
use values::ValueRow;

// What is met at a node: an entity to ask for, by its id; the ids in a marked set, by the place behind its row and the depth of its elements;
// or 14.
#[derive(Clone, Copy, PartialEq, Eq, Debug)]
pub enum Met {
    Row(u64),
    Ids(usize, u64),
    Bad,
}

// What a node comes to: something is met, or the rows of the values from a place on are kept for its children, or nothing is.
#[derive(Clone, Copy, PartialEq, Eq, Debug)]
pub enum Rule {
    Kept(Option<usize>),
    Met(Met),
}

// A node's rule at the row of its value.
fn row_rule(nodes: &[u64], node: usize, values: &[u64], at: usize, depth: u64) -> Rule
    requires { (node < length nodes.now) × (at < length values.now) × (depth < 32) }
    ensures { MeansRule values.now node result (row_rule (row_in (get_or nodes.now node 0))
        (rows_of (drop (node + 1) nodes.now)) node depth (value_row_in (get_or values.now at 0))
        (value_rows_of (drop (at + 1) values.now))) }
{
    let row = Row { word: nodes[node] };
    let value = ValueRow { word: values[at] };
    let kind = value.kind();
    if kind == ValueRow::ENTITY {
        return Rule::Met(Met::Row(value.number()));
    }
    if has_child(nodes, node + 1, row.depth(), false) {
        return Rule::Met(Met::Bad);
    }
    if ValueRow::SET < kind {
        if row.is_marked() {
            return Rule::Met(Met::Bad);
        }
        return Rule::Kept(Some(at + 1));
    }
    if has_child(nodes, node + 1, row.depth(), true) {
        return Rule::Met(Met::Bad);
    }
    if !row.is_marked() {
        return Rule::Kept(None);
    }
    if kind < ValueRow::ENTITY {
        return Rule::Met(Met::Bad);
    }
    if holds_ids(values, at + 1, depth + 1) {
        return Rule::Met(Met::Ids(at + 1, depth + 1));
    }
    Rule::Met(Met::Bad)
}

// The rule at a node: a field is looked up at its depth in what its parent kept, and an absent one is skipped.
pub fn find_remaining_entities_value(
    nodes: &[u64],
    node: usize,
    values: &[u64],
    kept: Option<usize>,
    depth: u64,
) -> Rule
    requires { (node < length nodes.now) × (depth < 32) }
    ensures { MeansRule values.now node result (at_node_rows depth (kept_in values.now kept)
        (row_in (get_or nodes.now node 0)) (rows_of (drop (node + 1) nodes.now)) node) }
{
    let Some(from) = kept else {
        return Rule::Kept(None);
    };
    let row = Row { word: nodes[node] };
    let step = StepParts::from(row.step());
    if step.kind != 0 {
        return Rule::Kept(None);
    }
    let at = field_row(values, from, depth, step.id);
    if at < values.len() {
        return row_rule(nodes, node, values, at, depth);
    }
    Rule::Kept(None)
}
