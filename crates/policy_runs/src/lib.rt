// The run over a policy text: its step lines on a stack, and each contribution added to a manifest where it ends.
#![tactic(auto)]

ghost use Rattle.std.specs.Prelude.{◌≡◌, ◌^◌, ◌<◌, ◌≤◌, length};
ghost use Rattle.rules.specs.Policies.{request_in};
ghost use Rattle.schema.specs.Items.{items_of};
ghost use Rattle.listing_lines.specs.Lines.{row_at};
ghost use Rattle.result_stack.specs.Stacks.{Scratch};
ghost use Rattle.policy_runs.specs.PolicyRuns.{request_of_row, LentManifest, Open, PolicyReady, ClosedBy, RoomToAdd, PolicyTakenBy, PolicyRanBy};
ghost use Rattle.text.specs.Answers.{number_of};

use manifest::{EntityManifest, unite_lawful};
use path_tries::TRIE;
use result_stack::{Stack, StepRefusal};
use step_lines::Step;
use step_runs::{Stop, step_line, write_contribution};
use text::Line;
use type_table::Types;
use words::Refusal;

// A contribution that has begun: its request type, and the stack after its step lines so far.
#[derive(Drop)]
struct Reading {
    request: u64,
    stack: Stack,
}

// The request type of the line that begins at a place, if it is an `A` line.
fn request_at(text: &[u8], at: usize) -> Option<u64>
    requires { at < length text.now }
    ensures { number_of result ≡ request_of_row (row_at text.now at) }
{
    let row = listing_reader::read_row(text, at)?;
    if row.depth != 0 {
        return None;
    }
    Some(row.step)
}

// Ends the contribution that has begun, if one has, in front of the line of that number: the one result that is left is added.
// `contribution` and `united` are scratch.
fn close(
    reading: Option<Reading>,
    number: u64,
    tries: &[u64],
    contribution: &mut [u64],
    united: &mut [u64],
    rows: &mut [u64],
) -> Result<(), Refusal>
    requires fact { Open tries.now reading × LentManifest rows.old }
    requires in_bounds { (1026 ≤ length contribution.old) × (4161 ≤ length united.old) }
    ensures { ClosedBy tries.now reading number rows.old rows.new result }
{
    let Some(begun) = reading else {
        return Ok(());
    };
    if begun.stack.results != 1 {
        return Err(StepRefusal::Results.at(number));
    }
    write_contribution(begun.request, tries, begun.stack.tries, contribution);
    match unite_lawful(rows, contribution, united) {
        Ok(()) => Ok(()),
        Err(refusal) => Err(Refusal {
            number: refusal.number,
            place: number,
        }),
    }
}

// Takes the line of that number: an `A` line ends the contribution before it and begins one, any other is a step line. `names`, `paths`,
// `trie`, `contribution` and `united` are scratch.
fn take_line(
    opened: Option<u64>,
    line: &[u8],
    number: u64,
    types: &Types<'_>,
    code: &mut [u16],
    tries: &mut [u64],
    names: &mut [u64],
    paths: &mut [u16],
    trie: &mut [u64],
    contribution: &mut [u64],
    united: &mut [u64],
    rows: &mut [u64],
    reading: Option<Reading>,
) -> Result<Reading, Stop>
    requires opens { number_of opened ≡ request_in line.now }
    requires ready { PolicyReady code.old tries.old names.old paths.old trie.old reading }
    requires room_to_add { RoomToAdd contribution.old united.old rows.old }
    ensures { PolicyTakenBy (items_of types.now.words.now) line.now number code.old tries.old rows.old reading code.new tries.new rows.new result }
{
    match opened {
        Some(request) => {
            close(reading, number, tries, contribution, united, rows)?;
            Ok(Reading {
                request,
                stack: Stack::new(code.len(), tries.len()),
            })
        }
        None => {
            let Some(begun) = reading else {
                return Err(Stop::Refused(StepRefusal::Unlawful.at(number)));
            };
            let stack = step_line(
                line,
                number,
                types,
                code,
                tries,
                names,
                paths,
                trie,
                begun.stack,
            )?;
            Ok(Reading {
                request: begun.request,
                stack,
            })
        }
    }
}

// Runs all lines of a policy text, and adds its contributions to `rows`; `paths` is scratch.
pub fn run_policy(
    types: &Types<'_>,
    text: &[u8],
    rows: &mut [u64],
    code: &mut [u16],
    tries: &mut [u64],
    paths: &mut [u16],
) -> Result<(), Stop>
    requires lent { LentManifest rows.old }
    requires code_len_bound { (length code.old < 2 ^ 53) × Scratch code.old paths.old }
    ensures { PolicyRanBy (items_of types.now.words.now) text.now code.old tries.old rows.old rows.new result }
{
    let mut names = [0u64; Step::NAMES];
    let mut trie = [0u64; TRIE];
    let mut contribution = [0u64; 1_026];
    let mut united = [0u64; EntityManifest::WORDS];
    let mut reading = None;
    let mut at = 0;
    let mut lines: u64 = 0;
    while at < text.len() {
        let Line::Whole(end) = Line::at(text, at) else {
            return Err(Stop::Refused(StepRefusal::Unlawful.at(lines)));
        };
        let begun = take_line(
            request_at(text, at),
            &text[at..end],
            lines,
            types,
            code,
            tries,
            &mut names,
            paths,
            &mut trie,
            &mut contribution,
            &mut united,
            rows,
            reading,
        )?;
        reading = Some(begun);
        at = end + 1;
        lines += 1;
    }
    close(reading, lines, tries, &mut contribution, &mut united, rows)?;
    Ok(())
}
