// The run over step lines: one line on the stack, all lines of a text, and the contribution of the one result that is left.
#![tactic(auto)]

ghost use Rattle.std.specs.Prelude.{◌≡◌, false, List, ◌∷◌, ◌++◌, ℕ, ◌^◌, ◌<◌, ◌≤◌, length, drop};
ghost use Rattle.rules.specs.Tries.{Row as RowOf};
ghost use Rattle.rules.specs.Listing.{read};
ghost use Rattle.rules.specs.Steps.{analyse};
ghost use Rattle.rows.specs.States.{holding};
ghost use Rattle.schema.specs.Items.{items_of};
ghost use Rattle.result_stack.specs.Stacks.{TrieAt, trie_words, Scratch};
ghost use Rattle.step_runs.specs.declared.Stop.TheVariants.{Refused};
ghost use Rattle.step_runs.specs.StepRuns.{Ready, LineTaken, RanBy, AnsweredBy, FullBy};

use path_tries::TRIE;
use result_stack::{Stack, StepRefusal};
use rows::Row;
use step_lines::{Step, parse};
use steps::apply;
use text::Line;
use type_table::Types;
use words::Refusal;

// Why a run over lines stops before their end: a line is refused, or the runs of the stack are full.
#[derive(Clone, Copy, PartialEq, Eq, Debug)]
pub enum Stop {
    Refused(Refusal),
    Full,
}

impl From<Refusal> for Stop {
    ghost from_gives = { λ refusal stop. stop ≡ Refused refusal };

    fn from(refusal: Refusal) -> Stop {
        Stop::Refused(refusal)
    }
}

// The stack after so many lines.
#[derive(Drop)]
pub struct Ran {
    pub stack: Stack,
    pub lines: u64,
}

// The step line of that number on the stack, where its runs have room for any step; `names`, `paths` and `trie` are scratch.
pub fn step_line(
    line: &[u8],
    number: u64,
    types: &Types<'_>,
    code: &mut [u16],
    tries: &mut [u64],
    names: &mut [u64],
    paths: &mut [u16],
    trie: &mut [u64],
    stack: Stack,
) -> Result<Stack, Stop>
    requires { Ready code.old tries.old names.old paths.old trie.old stack }
    ensures { LineTaken (items_of types.now.words.now) line.now number code.old tries.old stack code.new tries.new result }
{
    if stack.code < Stack::CODE_ROOM || stack.tries < Stack::TRIES_ROOM {
        return Err(Stop::Full);
    }
    let step = parse(line, names);
    match apply(step, names, types, code, tries, paths, trie, stack) {
        Ok(next) => Ok(next),
        Err(refusal) => Err(Stop::Refused(refusal.at(number))),
    }
}

// Runs all lines of a text; `paths` is scratch.
pub fn run(
    types: &Types<'_>,
    text: &[u8],
    code: &mut [u16],
    tries: &mut [u64],
    paths: &mut [u16],
) -> Result<Ran, Stop>
    requires { (length code.old < 2 ^ 53) × Scratch code.old paths.old }
    ensures { RanBy (items_of types.now.words.now) text.now code.new tries.new result }
{
    let mut names = [0u64; Step::NAMES];
    let mut trie = [0u64; TRIE];
    let mut stack = Stack::new(code.len(), tries.len());
    let mut at = 0;
    let mut lines: u64 = 0;
    while at < text.len() {
        let Line::Whole(end) = Line::at(text, at) else {
            return Err(Stop::Refused(StepRefusal::Unlawful.at(lines)));
        };
        stack = step_line(
            &text[at..end],
            lines,
            types,
            code,
            tries,
            &mut names,
            paths,
            &mut trie,
            stack,
        )?;
        at = end + 1;
        lines += 1;
    }
    Ok(Ran { stack, lines })
}

// Writes the contribution of the one result on a stack.
pub fn write_contribution(request: u64, tries: &[u64], at: usize, out: &mut [u64])
    requires { TrieAt tries.now at × ((request < 2 ^ 48) × (1026 ≤ length out.old)) }
    ensures { (trie : List RowOf) (rest : List ℕ) → drop at tries.now ≡ trie_words trie ++ rest → out.new ≡ holding out.old (read 0 request false ∷ trie) }
{
    let count = tries[at];
    out[0] = count + 1;
    out[1] = Row::entry(request).word;
    let first = at + 1;
    let end = first + count as usize;
    words::copy_words(&tries[first..end], out, 2);
}

// The contribution of a step text, by a stack in two runs of any length; `paths` is scratch.
pub fn answer_steps(
    types: &Types<'_>,
    request: u64,
    text: &[u8],
    out: &mut [u64],
    code: &mut [u16],
    tries: &mut [u64],
    paths: &mut [u16],
) -> Result<(), Stop>
    requires request_bound { (request < 2 ^ 48) × (1026 ≤ length out.old) }
    requires code_len_bound { (length code.old < 2 ^ 53) × Scratch code.old paths.old }
    ensures { AnsweredBy (analyse (items_of types.now.words.now) request text.now) out.old out.new result × FullBy code.old tries.old result }
{
    let ran = run(types, text, code, tries, paths)?;
    if ran.stack.results != 1 {
        return Err(Stop::Refused(StepRefusal::Results.at(ran.lines)));
    }
    write_contribution(request, tries, ran.stack.tries, out);
    Ok(())
}
