// The union of two runs of rows (`AccessTrie::union_mut`, `union_fields`, `RootAccessTrie::union_mut`): trie, fields and roots call one
// another, the steps left falling. Each store takes the next row of either run, or of both where they have the same node.
#![tactic(auto)]

ghost use Rattle.std.specs.Prelude.{◌≡◌, ◌≢◌, true, [], ◌+◌, ◌*◌, ◌^◌, ◌<◌, ◌≤◌, length};
ghost use Rattle.union.specs.Unions.{union_words, union_of, union_into, Roomy};
ghost use Rattle.rows.specs.States.{all_words};
ghost use Rattle.rows.specs.Sizes.{Counted};
ghost use Rattle.union.specs.Merge.{key_at, next_key, UnionTurn, MergeRoom, Merged, BelowTo, CopiedBelow, Copied, Decides};

use rows::{Kind, Limits, Row, Size, is_lawful};
use words::{Refusal, copy_words};

// How many rows of each run are passed, and the place of the next store.
#[derive(Clone, Copy, PartialEq, Eq, Debug)]
struct Cursors {
    a: usize,
    b: usize,
    out: usize,
}

// A row of a union, and how many rows of each run are passed with it.
#[derive(Clone, Copy, PartialEq, Eq, Debug)]
struct Taken {
    word: u64,
    a: usize,
    b: usize,
}

// The key of the row at a place, or END past the last.
fn key_at(rows: &[u64], at: usize) -> u64
    ensures { result ≡ key_at rows.now at }
{
    if at < rows.len() {
        Row { word: rows[at] }.key()
    } else {
        Row::END
    }
}

// The key of the next row of either run, or END past the last of both.
fn next_key(a: &[u64], b: &[u64], i: usize, j: usize) -> u64
    ensures { result ≡ next_key a.now b.now i j }
{
    key_at(a, i).min(key_at(b, j))
}

// The next row of either run, or of both where they have the same node, and how many rows of each are passed then.
fn next_row(a: &[u64], b: &[u64], i: usize, j: usize) -> Taken
    requires { (i ≤ length a.now) × (j ≤ length b.now) × (next_key a.now b.now i j < 2 ^ 53) }
    ensures { UnionTurn a.now b.now i j result.word result.a result.b }
{
    let x = key_at(a, i);
    let y = key_at(b, j);
    if x < y {
        return Taken {
            word: a[i],
            a: i + 1,
            b: j,
        };
    }
    if y < x {
        return Taken {
            word: b[j],
            a: i,
            b: j + 1,
        };
    }
    let left = Row { word: a[i] };
    let right = Row { word: b[j] };
    Taken {
        word: left.joined(right).word,
        a: i + 1,
        b: j + 1,
    }
}

// How many entries and nodes the union of two runs has: a pass that writes nothing.
fn union_size(a: &[u64], b: &[u64]) -> Size
    requires { (all_words a.now ≡ true) × (all_words b.now ≡ true) }
    ensures { Counted (union_words a.now b.now) [] result.entries result.nodes }
{
    let mut size = Size::NONE;
    let mut i = 0;
    let mut j = 0;
    while next_key(a, b, i, j) < Row::END {
        let next = next_row(a, b, i, j);
        size = size.with(Row { word: next.word });
        i = next.a;
        j = next.b;
    }
    size
}

// How many entries and nodes rows are.
fn row_size(rows: &[u64]) -> Size
    ensures counted { Counted rows.now [] result.entries result.nodes }
    ensures nodes_value { result.entries + result.nodes ≡ length rows.now }
{
    let mut size = Size::NONE;
    for word in rows {
        size = size.with(Row { word: *word });
    }
    size
}

// The size that decides whether the union of two runs is within limits: the sum of both where that is within, or else its own.
fn judged_size(limits: Limits, a: &[u64], b: &[u64]) -> Size
    requires { (all_words a.now ≡ true) × (all_words b.now ≡ true) }
    ensures { Decides limits (union_words a.now b.now) result.entries result.nodes }
{
    let left = row_size(a);
    let right = row_size(b);
    let entries = left.entries + right.entries;
    let nodes = left.nodes + right.nodes;
    if limits.entries < entries {
        return union_size(a, b);
    }
    if limits.nodes < nodes {
        return union_size(a, b);
    }
    Size { entries, nodes }
}

// The place after the rows from a place on that are deeper than a depth.
fn below_end(rows: &[u64], from: usize, depth: u64) -> usize
    requires { from ≤ length rows.now }
    ensures { BelowTo depth rows.now from result }
{
    for at in from..rows.len() {
        let row = Row { word: rows[at] };
        if row.depth() <= depth {
            return at;
        }
    }
    rows.len()
}

// Copies rows from a place on while they are deeper than a depth, and answers the place after them.
fn copy_below(rows: &[u64], from: usize, depth: u64, out: &mut [u64], to: usize) -> usize
    requires { (from ≤ length rows.now) × (to + length rows.now ≤ from + length out.old) }
    ensures { CopiedBelow depth rows.now from out.old to out.new result }
{
    let end = below_end(rows, from, depth);
    copy_words(&rows[from..end], out, to);
    end
}

// Copies the node at a place and all below it, and answers the place after them.
fn copy_trie(rows: &[u64], at: usize, out: &mut [u64], to: usize) -> usize
    requires { (at < length rows.now) × (to + length rows.now ≤ at + length out.old) }
    ensures { Copied rows.now at out.old to out.new result }
{
    let node = Row { word: rows[at] };
    out[to] = node.word;
    copy_below(rows, at + 1, node.depth(), out, to + 1)
}

// The next node where one run alone has it, and all below it: the next row of the other run comes after these.
fn take_alone(a: &[u64], b: &[u64], out: &mut [u64], c: Cursors) -> Cursors
    requires merge_room { MergeRoom a.now b.now out.old c.a c.b c.out }
    requires b_bound { (next_key a.now b.now c.a c.b < 2 ^ 53) × (key_at a.now c.a ≢ key_at b.now c.b) }
    ensures merged { Merged a.now b.now out.old c.a c.b c.out out.new result.a result.b result.out }
    ensures b_bound_2 { c.a + c.b < result.a + result.b }
{
    if key_at(a, c.a) < key_at(b, c.b) {
        let end = copy_trie(a, c.a, out, c.out);
        return Cursors {
            a: end,
            b: c.b,
            out: c.out + (end - c.a),
        };
    }
    let end = copy_trie(b, c.b, out, c.out);
    Cursors {
        a: c.a,
        b: end,
        out: c.out + (end - c.b),
    }
}

// Stores the next row where both runs have it.
fn take_both(a: &[u64], b: &[u64], out: &mut [u64], c: Cursors) -> Cursors
    requires merge_room { MergeRoom a.now b.now out.old c.a c.b c.out }
    requires b_bound { (next_key a.now b.now c.a c.b < 2 ^ 53) × (key_at a.now c.a ≡ key_at b.now c.b) }
    ensures merged { Merged a.now b.now out.old c.a c.b c.out out.new result.a result.b result.out }
    ensures b_bound_2 { c.a + c.b < result.a + result.b }
{
    let i = c.a;
    let j = c.b;
    let k = c.out;
    let left = Row { word: a[i] };
    let right = Row { word: b[j] };
    out[k] = left.joined(right).word;
    Cursors {
        a: i + 1,
        b: j + 1,
        out: k + 1,
    }
}

// The next node of either run, and then all below it: its fields and its ancestors trie. What one run alone has is copied.
#[cycle(union_fields_union_roots_union_trie)]
fn union_trie(a: &[u64], b: &[u64], out: &mut [u64], c: Cursors, left: u64) -> Cursors
    requires merge_room { MergeRoom a.now b.now out.old c.a c.b c.out }
    requires b_bound { next_key a.now b.now c.a c.b < 2 ^ 53 }
    requires left_bound { left ≤ 24 }
    ensures merged { Merged a.now b.now out.old c.a c.b c.out out.new result.a result.b result.out }
    ensures b_bound_2 { c.a + c.b < result.a + result.b }
{
    if key_at(a, c.a) != key_at(b, c.b) {
        return take_alone(a, b, out, c);
    }
    let node = take_both(a, b, out, c);
    if left == 0 {
        return node;
    }
    let fields = union_fields(a, b, out, node, left - 1);
    union_roots(a, b, out, fields, left - 1)
}

// The nodes at one depth whose step is a field.
#[cycle(union_fields_union_roots_union_trie)]
fn union_fields(a: &[u64], b: &[u64], out: &mut [u64], c: Cursors, left: u64) -> Cursors
    requires merge_room { MergeRoom a.now b.now out.old c.a c.b c.out }
    requires left_bound { left ≤ 24 }
    ensures { Merged a.now b.now out.old c.a c.b c.out out.new result.a result.b result.out }
{
    let roots = (left + 7) * 0x1_0000_0000_0000 + 0x1_0000;
    let mut at = c;
    while next_key(a, b, at.a, at.b) < roots {
        at = union_trie(a, b, out, at, left);
    }
    at
}

// The nodes at one depth whose step is a root, of an ancestors trie or of the whole; or the entries.
#[cycle(union_fields_union_roots_union_trie)]
fn union_roots(a: &[u64], b: &[u64], out: &mut [u64], c: Cursors, left: u64) -> Cursors
    requires merge_room { MergeRoom a.now b.now out.old c.a c.b c.out }
    requires left_bound { left ≤ 24 }
    ensures merged { Merged a.now b.now out.old c.a c.b c.out out.new result.a result.b result.out }
    ensures left_bound_2 { (left + 8) * 2 ^ 48 ≤ next_key a.now b.now result.a result.b }
{
    let above = (left + 8) * 0x1_0000_0000_0000;
    let mut at = c;
    while next_key(a, b, at.a, at.b) < above {
        at = union_trie(a, b, out, at, left);
    }
    at
}

// The union of two runs of rows in a state, within the limits of its kind: counted first, so that a refusal changes nothing.
pub fn union_rows(kind: Kind, a: &[u64], b: &[u64], out: &mut [u64]) -> Result<(), Refusal>
    requires { (all_words a.now ≡ true) × (all_words b.now ≡ true) × Roomy kind a.now b.now out.old }
    ensures { (result ≡ (union_into kind a.now b.now out.old).reply) × (out.new ≡ (union_into kind a.now b.now out.old).buffer) }
{
    let limits = kind.limits();
    let size = judged_size(limits, a, b);
    if limits.entries < size.entries {
        return Err(Refusal {
            number: 5,
            place: 0,
        });
    }
    if limits.nodes < size.nodes {
        return Err(Refusal {
            number: 4,
            place: 0,
        });
    }
    let start = Cursors { a: 0, b: 0, out: 1 };
    let end = union_roots(a, b, out, start, Kind::STEPS);
    out[0] = end.out as u64 - 1;
    Ok(())
}

// The union of two lawful states of one kind in a third, within that kind's limits.
pub fn union(kind: Kind, a: &[u64], b: &[u64], out: &mut [u64]) -> Result<(), Refusal>
    ensures { (result ≡ (union_of kind a.now b.now out.old).reply) × (out.new ≡ (union_of kind a.now b.now out.old).buffer) }
{
    let words = kind.words();
    if a.len() < words {
        return Err(Refusal::SHORT);
    }
    if b.len() < words {
        return Err(Refusal::SHORT);
    }
    if out.len() < words {
        return Err(Refusal::SHORT);
    }
    if !is_lawful(kind, a) {
        return Err(Refusal::UNLAWFUL);
    }
    if !is_lawful(kind, b) {
        return Err(Refusal::UNLAWFUL);
    }
    let a_end = a[0] as usize + 1;
    let b_end = b[0] as usize + 1;
    union_rows(kind, &a[1..a_end], &b[1..b_end], out)
}
