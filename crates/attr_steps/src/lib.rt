// The step that adds a field to the top's paths, judged on its whole result: 6, 7, 3, 4.
#![tactic(auto)]

ghost use Rattle.std.specs.Prelude.{◌<◌};
ghost use Rattle.rules.specs.Paths.{empty_leaf, add_paths};
ghost use Rattle.rules.specs.Steps.{attr_step};
ghost use Rattle.rows.specs.States.{rows_in};
ghost use Rattle.wrapped_paths.specs.Code.{paths_at};
ghost use Rattle.path_tries.specs.Nodes.{Became, PathsToAdd};
ghost use Rattle.result_stack.specs.Stacks.{Working, Scratch, StepsBy};

use path_tries::{add_wrapped_access_paths, is_too_deep};
use result_stack::{Stack, StepRefusal, copy_trie, replace, trie_end};
use wrapped_paths::{WrappedAccessPaths, get_or_has_attr, measure};

// `restore_global_trie_invariant`: merges the paths at some places into a trie, and answers whether it stays within the limit of nodes.
fn restore_global_trie_invariant(trie: &mut [u64], code: &[u16], places: &[u64]) -> bool
    requires { PathsToAdd trie.old code.now places.now }
    ensures { Became (add_paths (rows_in trie.old) (paths_at code.now places.now) empty_leaf) trie.new result }
{
    add_wrapped_access_paths(trie, code, places, false, &places[..0])
}

// `get_or_has_attr`, and `restore_global_trie_invariant` for the paths that gained the field: the others are in the trie.
// `paths` and `trie` are scratch.
pub fn attr_step(
    name: u64,
    code: &mut [u16],
    tries: &mut [u64],
    paths: &mut [u16],
    trie: &mut [u64],
    stack: Stack,
) -> Result<Stack, StepRefusal>
    requires working { Working code.old tries.old trie.old stack }
    requires name_bound { (name < 65536) × Scratch code.old paths.old }
    ensures { StepsBy (λ place results. attr_step place name results) code.old tries.old stack code.new tries.new result }
{
    if stack.results == 0 {
        return Err(StepRefusal::Results);
    }
    let mut places = [0u64; WrappedAccessPaths::PATHS];
    let Some(extended) = get_or_has_attr(code, stack.code, name as u16, paths, &mut places) else {
        return Err(StepRefusal::SetDereferenced);
    };
    let grown = &places[..extended.grown];
    if is_too_deep(paths, grown, 0) {
        return Err(StepRefusal::TooDeep);
    }
    copy_trie(tries, stack.tries, trie);
    if !restore_global_trie_invariant(trie, paths, grown) {
        return Err(StepRefusal::TooManyNodes);
    }
    let code_end = measure(code, stack.code, 1).end;
    let tries_end = trie_end(tries, stack.tries);
    Ok(replace(
        &paths[..extended.words],
        trie,
        code,
        code_end,
        tries,
        tries_end,
        stack.results,
    ))
}
