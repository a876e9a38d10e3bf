// The step `full` on the stack, judged on its whole result.
#![tactic(auto)]

ghost use Rattle.rules.specs.Steps.{full_step};
ghost use Rattle.schema.specs.Items.{items_of};
ghost use Rattle.result_stack.specs.Stacks.{Working, StepsBy};

use full_types::{add_taken, full_type_required, is_any_too_deep};
use result_stack::{Stack, StepRefusal, copy_trie, replace, trie_end};
use type_table::Types;
use wrapped_paths::WrappedAccessPaths;

// `full_type_required`: every path takes the trie of its type as leaf; `trie` is scratch.
pub fn full_step(
    t: u64,
    types: &Types<'_>,
    code: &mut [u16],
    tries: &mut [u64],
    trie: &mut [u64],
    stack: Stack,
) -> Result<Stack, StepRefusal>
    requires { Working code.old tries.old trie.old stack }
    ensures { StepsBy (λ place results. full_step (items_of types.now.words.now) t place results) code.old tries.old stack code.new tries.new result }
{
    if types.count <= t {
        return Err(StepRefusal::Unlawful);
    }
    if stack.results == 0 {
        return Err(StepRefusal::Results);
    }
    let mut pairs = [0u64; WrappedAccessPaths::PATHS];
    let Some(required) = full_type_required(code, stack.code, types, t, &mut pairs) else {
        return Err(StepRefusal::Mismatch);
    };
    let taken = &pairs[..required.pairs];
    if is_any_too_deep(code, types.table, taken) {
        return Err(StepRefusal::TooDeep);
    }
    copy_trie(tries, stack.tries, trie);
    if !add_taken(trie, code, types, taken) {
        return Err(StepRefusal::TooManyNodes);
    }
    let tries_end = trie_end(tries, stack.tries);
    let empty = [WrappedAccessPaths::Empty.word()];
    Ok(replace(
        &empty,
        trie,
        code,
        required.end,
        tries,
        tries_end,
        stack.results,
    ))
}
