// Steps that push or wrap results, judged on their whole result: 6, 15, 4.
#![tactic(auto)]

ghost use Rattle.std.specs.Prelude.{◌≡◌, ◌+◌, ◌-◌, ◌<◌, ◌≤◌, length, drop};
ghost use Rattle.rules.specs.Steps.{from_root, default_result, judged, two_step, union_results, set_step, drop_step, rec_step};
ghost use Rattle.rules.specs.StepLaws.{Each};
ghost use Rattle.words.specs.Runs.{Wrote};
ghost use Rattle.result_stack.specs.Stacks.{Holding, Working, StepsBy, WrapsBy};

use result_stack::{Stack, StepRefusal, merge_tries, push, put_before};
use wrapped_paths::{WrappedAccessPaths, measure};

// Wraps the top results under a head: their tries are merged; `trie` is scratch.
fn wrap(
    head: &[u16],
    count: u64,
    code: &mut [u16],
    tries: &mut [u64],
    trie: &mut [u64],
    stack: Stack,
) -> Result<Stack, StepRefusal>
    requires working { Working code.old tries.old trie.old stack }
    requires count_nonzero { (0 < count) × ((count ≤ stack.results) × (length head.now ≤ count + 1)) }
    ensures { WrapsBy head.now count code.old tries.old stack code.new tries.new result }
{
    let wrapped = measure(code, stack.code, count as usize);
    if WrappedAccessPaths::NODES <= wrapped.nodes {
        return Err(StepRefusal::TooManyPaths);
    }
    let Some(merged) = merge_tries(tries, stack.tries, count, trie) else {
        return Err(StepRefusal::TooManyNodes);
    };
    Ok(Stack {
        code: put_before(head, code, stack.code),
        tries: merged,
        results: stack.results - count + 1,
    })
}

// `EntityManifestAnalysisResult`: what a step makes of the results on the stack.
#[derive(Drop)]
pub struct EntityManifestAnalysisResult {}

impl EntityManifestAnalysisResult {
    // `from_root`: a path that is its root.
    pub fn from_root(
        root: u64,
        code: &mut [u16],
        tries: &mut [u64],
        stack: Stack,
    ) -> Result<Stack, StepRefusal>
        requires { Holding code.old tries.old stack }
        ensures { StepsBy (λ place results. judged place (from_root root) results) code.old tries.old stack code.new tries.new result }
    {
        let kind = (root / 0x1_0000 % 8) as u16;
        let id = (root % 0x1_0000) as u16;
        let paths = [WrappedAccessPaths::AccessPath(kind, 1).word(), id];
        push(&paths, code, tries, stack)
    }

    // The default result.
    pub fn default(code: &mut [u16], tries: &mut [u64], stack: Stack) -> Result<Stack, StepRefusal>
        requires { Holding code.old tries.old stack }
        ensures { StepsBy (λ place results. judged place default_result results) code.old tries.old stack code.new tries.new result }
    {
        let paths = [WrappedAccessPaths::Empty.word()];
        push(&paths, code, tries, stack)
    }

    // `union`: tries merged, paths joined; `trie` is scratch.
    pub fn union(
        code: &mut [u16],
        tries: &mut [u64],
        trie: &mut [u64],
        stack: Stack,
    ) -> Result<Stack, StepRefusal>
        requires { Working code.old tries.old trie.old stack }
        ensures { StepsBy (λ place results. two_step union_results place results) code.old tries.old stack code.new tries.new result }
    {
        if stack.results < 2 {
            return Err(StepRefusal::Results);
        }
        let head = [WrappedAccessPaths::Union.word()];
        wrap(&head, 2, code, tries, trie, stack)
    }

    // `empty_paths`
    pub fn empty_paths(
        code: &mut [u16],
        tries: &mut [u64],
        stack: Stack,
    ) -> Result<Stack, StepRefusal>
        requires { Holding code.old tries.old stack }
        ensures { StepsBy (λ place results. drop_step place results) code.old tries.old stack code.new tries.new result }
    {
        if stack.results == 0 {
            return Err(StepRefusal::Results);
        }
        let code_end = measure(code, stack.code, 1).end;
        let empty = [WrappedAccessPaths::Empty.word()];
        Ok(Stack {
            code: put_before(&empty, code, code_end),
            tries: stack.tries,
            results: stack.results,
        })
    }
}

// A set literal of the top result; `trie` is scratch.
pub fn set_step(
    code: &mut [u16],
    tries: &mut [u64],
    trie: &mut [u64],
    stack: Stack,
) -> Result<Stack, StepRefusal>
    requires { Working code.old tries.old trie.old stack }
    ensures { StepsBy (λ place results. set_step place results) code.old tries.old stack code.new tries.new result }
{
    if stack.results == 0 {
        return Err(StepRefusal::Results);
    }
    let head = [WrappedAccessPaths::SetLiteral.word()];
    wrap(&head, 1, code, tries, trie, stack)
}

// Copies names, which are fields, to a place, and answers the place after them.
fn copy_names(names: &[u64], out: &mut [u16], to: usize) -> usize
    requires { (to + length names.now ≤ length out.old) × Each (λ f. f < 65536) names.now }
    ensures { Wrote out.old to names.now out.new result }
{
    for (i, name) in names.iter().enumerate() {
        out[to + i] = *name as u16;
    }
    to + names.len()
}

// A record literal of the top results; the names stand at the end of `names`, last first; `trie` is scratch.
pub fn rec_step(
    count: usize,
    names: &[u64],
    code: &mut [u16],
    tries: &mut [u64],
    trie: &mut [u64],
    stack: Stack,
) -> Result<Stack, StepRefusal>
    requires working { Working code.old tries.old trie.old stack }
    requires count_bound { (count ≤ 32) × ((length names.now ≡ 32) × Each (λ f. f < 65536) (drop (32 - count) names.now)) }
    ensures { StepsBy (λ place results. rec_step (drop (32 - count) names.now) place results) code.old tries.old stack code.new tries.new result }
{
    if count == 0 {
        let empty = [WrappedAccessPaths::RecordLiteral(0).word()];
        return push(&empty, code, tries, stack);
    }
    if stack.results < count as u64 {
        return Err(StepRefusal::Results);
    }
    let mut head = [0u16; 33];
    head[0] = WrappedAccessPaths::RecordLiteral(count).word();
    let first = names.len() - count;
    let end = copy_names(&names[first..], &mut head, 1);
    wrap(&head[..end], count as u64, code, tries, trie, stack)
}
