// What is asked of a text with a schema: the contribution of step lines, or all contributions of a policy text added to a manifest. Each is
// worked out on a small stack, and on a large one where that is full.
#![tactic(auto)]

ghost use Rattle.std.specs.Prelude.{◌≡◌, true, ◌^◌, ◌<◌, length};
ghost use Rattle.schema.specs.Items.{items_of, good_items};
ghost use Rattle.result_stack.specs.Stacks.{Scratch};
ghost use Rattle.rules.specs.Policies.{add_policy};
ghost use Rattle.rows.specs.States.{rows_in};
ghost use Rattle.step_runs.specs.StepRuns.{AnswerStored, AnsweredBy, FullBy};
ghost use Rattle.analysis.specs.declared.Job.TheVariants.{Policy};
ghost use Rattle.analysis.specs.Outcomes.{analyse_in, add_policy_in, answer_to, JobLent};

use manifest::EntityManifest;
use policy_runs::run_policy;
use result_stack::Stack;
use rows::Kind;
use step_runs::{Stop, answer_steps};
use type_table::{TypeSize, Types, fill_table};
use words::Refusal;
use wrapped_paths::WrappedAccessPaths;

// What is asked of a text: the contribution of its steps under a request type, or that all its contributions are added.
#[derive(Clone, Copy, PartialEq, Eq, Debug)]
enum Job {
    Steps(u64),
    Policy,
}

// All contributions of a policy text, added to a copy of the manifest that takes its place at the end; `paths` is scratch.
fn answer_policy(
    types: &Types<'_>,
    text: &[u8],
    manifest: &mut [u64],
    code: &mut [u16],
    tries: &mut [u64],
    paths: &mut [u16],
) -> Result<(), Stop>
    requires lent { JobLent Policy manifest.old }
    requires code_len_bound { (length code.old < 2 ^ 53) × Scratch code.old paths.old }
    ensures { AnsweredBy (add_policy (items_of types.now.words.now) (rows_in manifest.old) text.now) manifest.old manifest.new result × FullBy code.old tries.old result }
{
    let mut rows = [0u64; EntityManifest::WORDS];
    words::copy_rows(manifest, &mut rows);
    run_policy(types, text, &mut rows, code, tries, paths)?;
    words::copy_rows(&rows, manifest);
    Ok(())
}

// The answer by a stack in two runs of any length; `paths` is scratch.
fn answer_in(
    job: Job,
    types: &Types<'_>,
    text: &[u8],
    out: &mut [u64],
    code: &mut [u16],
    tries: &mut [u64],
    paths: &mut [u16],
) -> Result<(), Stop>
    requires lent { JobLent job out.old }
    requires code_len_bound { (length code.old < 2 ^ 53) × Scratch code.old paths.old }
    ensures { AnsweredBy (answer_to (items_of types.now.words.now) job text.now out.old) out.old out.new result × FullBy code.old tries.old result }
{
    match job {
        Job::Steps(request) => answer_steps(types, request, text, out, code, tries, paths),
        Job::Policy => answer_policy(types, text, out, code, tries, paths),
    }
}

// The answer by a small stack: it is cleared in little time, and most texts do not fill it.
fn answer_small(job: Job, types: &Types<'_>, text: &[u8], out: &mut [u64]) -> Result<(), Stop>
    requires { JobLent job out.old }
    ensures { AnsweredBy (answer_to (items_of types.now.words.now) job text.now out.old) out.old out.new result }
{
    let mut code = [0u16; Stack::SMALL_CODE];
    let mut tries = [0u64; Stack::SMALL_TRIES];
    let mut paths = [0u16; Stack::SMALL_CODE];
    answer_in(job, types, text, out, &mut code, &mut tries, &mut paths)
}

// The answer by a stack that no text fills, so that it is never full.
fn answer_large(job: Job, types: &Types<'_>, text: &[u8], out: &mut [u64]) -> Result<(), Refusal>
    requires { JobLent job out.old }
    ensures { AnswerStored (answer_to (items_of types.now.words.now) job text.now out.old) out.old out.new result }
{
    let mut code = [0u16; Stack::CODE];
    let mut tries = [0u64; Stack::TRIES];
    let mut paths = [0u16; WrappedAccessPaths::WORDS];
    match answer_in(job, types, text, out, &mut code, &mut tries, &mut paths) {
        Ok(()) => Ok(()),
        Err(Stop::Refused(refusal)) => Err(refusal),
        // Never taken, as the runs are never full. The call of itself keeps the compiler from putting this large frame into its caller's,
        // which would cost a probe of each page at every call.
        Err(Stop::Full) => answer_large(job, types, text, out),
    }
}

// The answer with a schema's words.
fn answer(job: Job, words: &[u64], text: &[u8], out: &mut [u64]) -> Result<(), Refusal>
    requires words_value { (good_items words.now ≡ true) × (length words.now < 142337) }
    requires job_lent { JobLent job out.old }
    ensures { AnswerStored (answer_to (items_of words.now) job text.now out.old) out.old out.new result }
{
    let mut table = [0u64; TypeSize::TYPES];
    let count = fill_table(words, &mut table);
    let types = Types {
        words,
        table: &table,
        count,
    };
    match answer_small(job, &types, text, out) {
        Ok(()) => Ok(()),
        Err(Stop::Refused(refusal)) => Err(refusal),
        Err(Stop::Full) => answer_large(job, &types, text, out),
    }
}

// The largest request type.
const LAST_REQUEST: u64 = 0xffff_ffff_ffff;

// The contribution of a step text under a request type; a refusal leaves the output as it was.
pub fn analyse(schema: &[u64], request: u64, text: &[u8], out: &mut [u64]) -> Result<(), Refusal>
    ensures { (result ≡ (analyse_in schema.now request text.now out.old).reply) × (out.new ≡ (analyse_in schema.now request text.now out.old).buffer) }
{
    if schema.len() < schema::Schema::WORDS {
        return Err(Refusal::SHORT);
    }
    if out.len() < Kind::Contribution.words() {
        return Err(Refusal::SHORT);
    }
    if !schema::is_lawful(schema) {
        return Err(Refusal::UNLAWFUL);
    }
    if LAST_REQUEST < request {
        return Err(Refusal::UNLAWFUL);
    }
    let end = schema[0] as usize + 1;
    answer(Job::Steps(request), &schema[1..end], text, out)
}

// Adds all contributions of a policy text to a manifest, in order; a refusal leaves the manifest as it was.
pub fn add_policy(schema: &[u64], text: &[u8], manifest: &mut [u64]) -> Result<(), Refusal>
    ensures { (result ≡ (add_policy_in schema.now text.now manifest.old).reply) × (manifest.new ≡ (add_policy_in schema.now text.now manifest.old).buffer) }
{
    if schema.len() < schema::Schema::WORDS {
        return Err(Refusal::SHORT);
    }
    if manifest.len() < EntityManifest::WORDS {
        return Err(Refusal::SHORT);
    }
    if !schema::is_lawful(schema) {
        return Err(Refusal::UNLAWFUL);
    }
    if !rows::is_lawful(Kind::Manifest, manifest) {
        return Err(Refusal::UNLAWFUL);
    }
    let end = schema[0] as usize + 1;
    answer(Job::Policy, &schema[1..end], text, manifest)
}
