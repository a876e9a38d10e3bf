// The step `in` on the stack, judged on its whole result.
#![tactic(auto)]

ghost use Rattle.std.specs.Prelude.{◌≡◌, false, ◌<◌};
ghost use Rattle.rules.specs.Paths.{add_paths};
ghost use Rattle.rules.specs.Steps.{two_step, in_result};
ghost use Rattle.rules.specs.StepLaws.{AllPaths};
ghost use Rattle.rules.specs.TypeLaws.{longest as longest_of, marked_leaf};
ghost use Rattle.rows.specs.States.{rows_in};
ghost use Rattle.wrapped_paths.specs.Code.{AllWithin, paths_at};
ghost use Rattle.path_tries.specs.Nodes.{Became, PathsToAdd, any_deep};
ghost use Rattle.result_stack.specs.Stacks.{Working, StepsBy, ancestors_required};

use path_tries::{TRIE, add_wrapped_access_paths, is_too_deep, longest, union_into};
use result_stack::{Stack, StepRefusal, copy_trie, replace, trie_end};
use wrapped_paths::{WrappedAccessPaths, measure, paths_in};

// `to_ancestor_access_trie`: merges the paths at some places, each leaf marked, into a trie, and answers whether it stays within the limit of
// nodes.
fn to_ancestor_access_trie(code: &[u16], places: &[u64], trie: &mut [u64]) -> bool
    requires { PathsToAdd trie.old code.now places.now }
    ensures { Became (add_paths (rows_in trie.old) (paths_at code.now places.now) marked_leaf) trie.new result }
{
    add_wrapped_access_paths(trie, code, places, true, &places[..0])
}

// `with_ancestors_required`: merges the paths at some places, with the ancestor trie of the right side's paths below each, into a trie, and
// answers whether it stays within the limit of nodes.
fn with_ancestors_required(trie: &mut [u64], code: &[u16], left: &[u64], right: &[u64]) -> bool
    requires paths_to_add { PathsToAdd trie.old code.now left.now }
    requires all_within { AllWithin code.now right.now × AllPaths (paths_at code.now right.now) }
    requires right_value { any_deep (paths_at code.now left.now) (longest_of (paths_at code.now right.now)) ≡ false }
    ensures { Became (ancestors_required (rows_in trie.old) (paths_at code.now left.now) (paths_at code.now right.now)) trie.new result }
{
    if left.is_empty() {
        return true;
    }
    let mut ancestors = [0u64; TRIE];
    if !to_ancestor_access_trie(code, right, &mut ancestors) {
        return false;
    }
    let end = ancestors[0] as usize + 1;
    add_wrapped_access_paths(trie, code, left, false, &ancestors[1..end])
}

// `in`: the left side with the right side's ancestor trie, then both tries merged; no paths are left. `trie` is scratch.
pub fn in_step(
    code: &mut [u16],
    tries: &mut [u64],
    trie: &mut [u64],
    stack: Stack,
) -> Result<Stack, StepRefusal>
    requires { Working code.old tries.old trie.old stack }
    ensures { StepsBy (λ place results. two_step in_result place results) code.old tries.old stack code.new tries.new result }
{
    if stack.results < 2 {
        return Err(StepRefusal::Results);
    }
    let mut right_places = [0u64; WrappedAccessPaths::PATHS];
    let right_paths = paths_in(code, stack.code, &mut right_places);
    let right = &right_places[..right_paths];
    let left_code = measure(code, stack.code, 1).end;
    let mut left_places = [0u64; WrappedAccessPaths::PATHS];
    let left_paths = paths_in(code, left_code, &mut left_places);
    let left = &left_places[..left_paths];
    if is_too_deep(code, left, longest(code, right)) {
        return Err(StepRefusal::TooDeep);
    }
    let right_tries = stack.tries;
    let left_tries = trie_end(tries, right_tries);
    copy_trie(tries, left_tries, trie);
    if !with_ancestors_required(trie, code, left, right) {
        return Err(StepRefusal::TooManyNodes);
    }
    if !union_into(trie, &tries[right_tries + 1..left_tries]) {
        return Err(StepRefusal::TooManyNodes);
    }
    let code_end = measure(code, left_code, 1).end;
    let tries_end = trie_end(tries, left_tries);
    let empty = [WrappedAccessPaths::Empty.word()];
    Ok(replace(
        &empty,
        trie,
        code,
        code_end,
        tries,
        tries_end,
        stack.results - 1,
    ))
}
