// A step by its kind.
#![tactic(auto)]

ghost use Rattle.std.specs.Prelude.{◌≡◌, ◌≤◌, Some, length};
ghost use Rattle.rules.specs.Steps.{stepped as stepped_by};
ghost use Rattle.schema.specs.Items.{items_of};
ghost use Rattle.step_lines.specs.Lines.{line_read, names_read, GoodRead};
ghost use Rattle.step_lines.specs.declared.Step.{Step as StepRead};
ghost use Rattle.result_stack.specs.Stacks.{Working, Scratch, StepsBy};

use attr_steps::attr_step;
use full_steps::full_step;
use in_steps::in_step;
use result_stack::{Stack, StepRefusal};
use step_lines::Step;
use type_table::Types;
use wrap_steps::{EntityManifestAnalysisResult, rec_step, set_step};

// One step on the stack, which is refused where a line has none; `paths` and `trie` are scratch.
#[tactic(auto, unfolding(rules::specs::Steps::apply))]
pub fn apply(
    step: Option<Step>,
    names: &[u64],
    types: &Types<'_>,
    code: &mut [u16],
    tries: &mut [u64],
    paths: &mut [u16],
    trie: &mut [u64],
    stack: Stack,
) -> Result<Stack, StepRefusal>
    requires step_bound { (names_read step ≤ 32) × ((length names.now ≡ 32) × ((read : StepRead) → step ≡ Some read → GoodRead read names.now)) }
    requires working { Working code.old tries.old trie.old stack × Scratch code.old paths.old }
    ensures { StepsBy (λ place results. stepped_by (items_of types.now.words.now) place (line_read step names.now) results) code.old tries.old stack code.new tries.new result }
{
    let Some(read) = step else {
        return Err(StepRefusal::Unlawful);
    };
    match read {
        Step::Root(root) => EntityManifestAnalysisResult::from_root(root, code, tries, stack),
        Step::None => EntityManifestAnalysisResult::default(code, tries, stack),
        Step::Attr(name) => attr_step(name, code, tries, paths, trie, stack),
        Step::Union => EntityManifestAnalysisResult::union(code, tries, trie, stack),
        Step::Drop => EntityManifestAnalysisResult::empty_paths(code, tries, stack),
        Step::Full(t) => full_step(t, types, code, tries, trie, stack),
        Step::In => in_step(code, tries, trie, stack),
        Step::Set => set_step(code, tries, trie, stack),
        Step::Rec(count) => rec_step(count, names, code, tries, trie, stack),
    }
}
