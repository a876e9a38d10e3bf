// Paths into tries. A trie is a state without an entry: the count of its nodes, then their rows.
#![tactic(auto)]

ghost use Rattle.std.specs.Prelude.{◌≡◌, true, not, ◌&&◌, [], ◌∷◌, ◌+◌, ◌≤◌, eqb, length, take, get_or};
ghost use Rattle.rules.specs.Tries.{union};
ghost use Rattle.rules.specs.Paths.{to_root_access_trie_with_leaf, add_access_path, add_paths};
ghost use Rattle.rules.specs.StepLaws.{IsPath};
ghost use Rattle.rules.specs.TypeLaws.{longest as longest_of};
ghost use Rattle.rows.specs.States.{rows_of, rows_in};
ghost use Rattle.union.specs.Unions.{Roomy};
ghost use Rattle.words.specs.Runs.{words_in, Wrote};
ghost use Rattle.rows.specs.declared.Kind.TheVariants.{Contribution};
ghost use Rattle.wrapped_paths.specs.Code.{path_at, paths_at, AllWithin};
ghost use Rattle.path_tries.specs.Nodes.{all_nodes, all_below, IsState, Became, PathsToAdd, leaf_of, any_deep, AllFit, chain_words, deeper_words, RunOf};

use rows::{Kind, Row};
use wrapped_paths::steps_at;

// The words of a trie: its count and at most as many nodes as a contribution has. A path with its leaf has at most 24 more.
pub const TRIE: usize = 1_026;

const RUN: usize = 1_048;

// The steps of a path.
pub const PATH: usize = 24;

// Most unions, runs and leaves are short. These take a buffer of so many words, which costs little to clear.
pub const FEW: usize = 64;

// Writes the chain of nodes of a path, the last one marked or not, and answers how many there are.
fn write_chain(path: &[u64], marked: bool, out: &mut [u64]) -> usize
    requires { IsPath path.now × (length path.now ≤ length out.old) }
    ensures { Wrote out.old 0 (chain_words path.now marked) out.new result }
{
    let last = path.len() - 1;
    for i in 0..last {
        let depth = i + 1;
        out[i] = Row::node(depth as u64, path[i], false).word;
    }
    let steps = path.len();
    out[last] = Row::node(steps as u64, path[last], marked).word;
    steps
}

// Writes rows so many steps deeper from a place on, and answers the place after them.
fn write_deeper(rows: &[u64], by: usize, out: &mut [u64], to: usize) -> usize
    requires { (all_below by rows.now ≡ true) × (to + length rows.now ≤ length out.old) }
    ensures { Wrote out.old to (deeper_words by rows.now) out.new result }
{
    for (i, row) in rows.iter().enumerate() {
        out[to + i] = *row + by as u64;
    }
    to + rows.len()
}

// Merges a run of nodes into a trie by way of a buffer, and answers whether it stays within the limit of nodes; if not, the trie is as it was.
fn union_by(trie: &mut [u64], run: &[u64], united: &mut [u64]) -> bool
    requires state { IsState trie.old × (all_nodes run.now ≡ true) }
    requires roomy { Roomy Contribution (words_in trie.old) run.now united.old × (length united.old ≤ 1026) }
    ensures { Became (union (rows_in trie.old) (rows_of run.now)) trie.new result }
{
    let end = trie[0] as usize + 1;
    let Ok(()) = union::union_rows(Kind::Contribution, &trie[1..end], run, united) else {
        return false;
    };
    words::copy_rows(united, trie);
    true
}

// Makes an empty trie a run of nodes, and answers whether that is within the limit of nodes.
fn fill(trie: &mut [u64], run: &[u64]) -> bool
    requires { IsState trie.old × ((all_nodes run.now ≡ true) × (get_or trie.old 0 0 ≡ 0)) }
    ensures { Became (union (rows_in trie.old) (rows_of run.now)) trie.new result }
{
    if 1_024 < run.len() {
        return false;
    }
    trie[0] = run.len() as u64;
    words::copy_words(run, trie, 1);
    true
}

// Merges a run of nodes into a trie, and answers whether it stays within the limit of nodes; if not, the trie is as it was. Many runs are empty,
// since a root without a field gives none, and many tries.
pub fn union_into(trie: &mut [u64], run: &[u64]) -> bool
    requires { IsState trie.old × (all_nodes run.now ≡ true) }
    ensures { Became (union (rows_in trie.old) (rows_of run.now)) trie.new result }
{
    if run.is_empty() {
        return true;
    }
    if trie[0] == 0 {
        return fill(trie, run);
    }
    let rows = trie[0] as usize + run.len();
    if rows < FEW {
        let mut united = [0u64; FEW];
        return union_by(trie, run, &mut united);
    }
    let mut united = [0u64; TRIE];
    union_by(trie, run, &mut united)
}

// Whether a path of so many steps and its leaf give no node: no field, no mark and nothing below.
fn is_no_trie(steps: usize, marked: bool, below: usize) -> bool
    ensures { result ≡ (eqb steps 1 && (not marked && eqb below 0)) }
{
    if steps != 1 {
        return false;
    }
    if marked {
        return false;
    }
    below == 0
}

// `to_root_access_trie_with_leaf`: writes a path with its leaf, a mark and the nodes below it, and answers how many nodes that is. A path
// without fields and with an empty leaf gives none.
fn to_root_access_trie_with_leaf(
    path: &[u64],
    marked: bool,
    below: &[u64],
    out: &mut [u64],
) -> usize
    requires path { IsPath path.now × (length path.now + length below.now ≤ length out.old) }
    requires below_value { all_below (length path.now) below.now ≡ true }
    ensures { RunOf (to_root_access_trie_with_leaf path.now (leaf_of marked below.now)) out.new result }
{
    if is_no_trie(path.len(), marked, below.len()) {
        return 0;
    }
    let leaf = write_chain(path, marked, out);
    write_deeper(below, path.len(), out, leaf)
}

// Merges a path with its leaf into a trie by way of a buffer, and answers whether it stays within the limit of nodes.
fn add_by(trie: &mut [u64], path: &[u64], marked: bool, below: &[u64], run: &mut [u64]) -> bool
    requires state { IsState trie.old × IsPath path.now }
    requires below_in_bounds { (length path.now + length below.now ≤ length run.old) × (all_below (length path.now) below.now ≡ true) }
    ensures { Became (add_access_path (rows_in trie.old) path.now (leaf_of marked below.now)) trie.new result }
{
    let end = to_root_access_trie_with_leaf(path, marked, below, run);
    union_into(trie, &run[..end])
}

// `add_access_path`: merges a path with its leaf into a trie, and answers whether it stays within the limit of nodes.
pub fn add_access_path(trie: &mut [u64], path: &[u64], marked: bool, below: &[u64]) -> bool
    requires state { IsState trie.old × IsPath path.now }
    requires below_len_bound { (length below.now ≤ 1024) × (all_below (length path.now) below.now ≡ true) }
    ensures { Became (add_access_path (rows_in trie.old) path.now (leaf_of marked below.now)) trie.new result }
{
    if path.len() + below.len() <= FEW {
        let mut run = [0u64; FEW];
        return add_by(trie, path, marked, below, &mut run);
    }
    let mut run = [0u64; RUN];
    add_by(trie, path, marked, below, &mut run)
}

// Reads the path whose head stands at a place: its root has the kind that the head says. Answers how many steps it has.
pub fn read_path(code: &[u16], at: usize, path: &mut [u64]) -> usize
    requires { AllWithin code.now (at ∷ []) × (IsPath (path_at code.now at) × (length path.old ≡ 24)) }
    ensures { (result ≤ length path.new) × (take result path.new ≡ path_at code.now at) }
{
    let first = at + 1;
    let steps = steps_at(code, at) as usize;
    path[0] = u64::from(code[at]) / 8 % 8 * 0x1_0000 + u64::from(code[first]);
    for i in 1..steps {
        path[i] = u64::from(code[first + i]);
    }
    steps
}

// `add_wrapped_access_paths`: merges the paths at some places with one leaf into a trie, and answers whether it stays within the limit.
pub fn add_wrapped_access_paths(
    trie: &mut [u64],
    code: &[u16],
    places: &[u64],
    marked: bool,
    below: &[u64],
) -> bool
    requires paths_to_add { PathsToAdd trie.old code.now places.now }
    requires below_len_bound { (length below.now ≤ 1024) × AllFit (paths_at code.now places.now) below.now }
    ensures { Became (add_paths (rows_in trie.old) (paths_at code.now places.now) (leaf_of marked below.now)) trie.new result }
{
    let mut path = [0u64; PATH];
    for place in places {
        let steps = read_path(code, *place as usize, &mut path);
        if !add_access_path(trie, &path[..steps], marked, below) {
            return false;
        }
    }
    true
}

// Whether some path with so many steps below it would exceed the steps of a position.
pub fn is_too_deep(code: &[u16], places: &[u64], below: u64) -> bool
    requires { AllWithin code.now places.now × (below ≤ 24) }
    ensures { result ≡ any_deep (paths_at code.now places.now) below }
{
    for place in places {
        if Kind::STEPS < steps_at(code, *place as usize) + below {
            return true;
        }
    }
    false
}

// The steps of the longest of some paths.
pub fn longest(code: &[u16], places: &[u64]) -> u64
    requires { AllWithin code.now places.now }
    ensures { result ≡ longest_of (paths_at code.now places.now) }
{
    let mut most: u64 = 0;
    for place in places {
        most = most.max(steps_at(code, *place as usize));
    }
    most
}
