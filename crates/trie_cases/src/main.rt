// Replays the vectors of data/: lines that fill two states and an expected one, and lines that ask for a union or a place.
#![tactic(auto)]

ghost use Rattle.std.specs.Prelude.{◌≤◌, ◌<◌};

use cases::{Case, Refused};
use rows::Row;
use std::alloc::{AllocError, Global};
use std::{fmt, io};
use words::Refusal;

// The words of a manifest.
const WORDS: usize = 4_161;

// What a line has from a field on.
fn rest(case: Case<'_>, n: usize) -> &[u8] {
    case.line
        .splitn(n.saturating_add(1), |byte| *byte == b'\t')
        .nth(n)
        .unwrap_or(b"")
}

// The step whose letter and id are two fields of a case: its kind is the place of the first byte there in the order f p a r c e, and 6 for any
// other. Where the line ends in front of the letter it is step 0.
fn step(case: Case, n: usize) -> u64
    ensures { result ≤ 458751 }
{
    let kind = match rest(case, n) {
        [] => return 0,
        [b'f', ..] => 0,
        [b'p', ..] => 1,
        [b'a', ..] => 2,
        [b'r', ..] => 3,
        [b'c', ..] => 4,
        [b'e', ..] => 5,
        _ => 6,
    };
    kind * 0x1_0000 + u64::from(case.number(n.saturating_add(1)))
}

// Puts one more row behind the rows of a state, where there is room.
fn push(state: &mut [u64], row: Row) {
    if let Some((count, rows)) = state.split_first_mut()
        && let Some(word) = rows.get_mut(*count as usize)
    {
        *word = row.word;
        *count += 1;
    }
}

// Puts the rows that a line names behind the rows of a state: an entry `A`, a node `N`, or the nodes of a fan `F`, fields at one depth.
fn push_rows(case: Case, state: &mut [u64]) {
    if case.is(1, b"A") {
        push(state, Row::entry(case.triple(2)));
        return;
    }
    let depth = u64::from(case.number(2));
    if 31 < depth {
        return;
    }
    if case.is(1, b"N") {
        push(state, Row::node(depth, step(case, 3), case.number(5) == 1));
        return;
    }
    for id in case.number(3)..=case.number(4) {
        push(state, Row::node(depth, u64::from(id), false));
    }
}

// Whether a state has the rows of an expected one, and nothing behind them.
fn has_rows(state: &[u64; WORDS], want: &[u64; WORDS]) -> bool {
    let end = WORDS.min((want[0] as usize).saturating_add(1));
    &state[..end] == &want[..end] && state[end..].iter().all(|word| *word == 0)
}

// Whether a state has a place, as it is shown.
#[derive(Drop)]
struct Told(Result<Option<bool>, Refusal>);

impl fmt::Display for Told {
    fn fmt<W: fmt::Write>(&self, f: &mut fmt::Formatter<W>) -> fmt::Result {
        match self.0 {
            Ok(None) => write!(f, "missing"),
            Ok(Some(true)) => write!(f, "there and marked"),
            Ok(Some(false)) => write!(f, "there"),
            Err(refusal) => write!(f, "{}", Refused(refusal)),
        }
    }
}

// The place that a case names: a request type, from field 3 on, and then steps.
fn place_of(alloc: Global, case: Case) -> Result<Vec<u64>, AllocError> {
    let mut place = vec![in alloc; case.triple(3)]?;
    for field in (6..56).step_by(2) {
        if case.field_bytes(field).is_empty() {
            break;
        }
        place.push(step(case, field))?;
    }
    Ok(place)
}

// Two states, and the union that is expected of them.
#[derive(Drop)]
struct States {
    a: [u64; WORDS],
    b: [u64; WORDS],
    want: [u64; WORDS],
}

impl States {
    const EMPTY: States = States {
        a: [0; WORDS],
        b: [0; WORDS],
        want: [0; WORDS],
    };

    // The union of the two states: whether it is the expected one, or the refusal.
    fn union(&self, case: Case) -> Result<bool, Refusal> {
        let mut out = [0u64; WORDS];
        union::union(case.kind(), &self.a, &self.b, &mut out)?;
        Ok(has_rows(&out, &self.want))
    }

    // Takes the rows out of the states: what stands behind the rows that come next is none of theirs.
    fn empty(&mut self) {
        self.a[0] = 0;
        self.b[0] = 0;
        self.want[0] = 0;
    }

    // Asks what a case asks for, and says what comes of it.
    fn ask(&self, rt: &HostRuntime, case: Case) -> io::Result<()> {
        cases::print_bytes(rt, case.field_bytes(2))?;
        match case.field_bytes(0) {
            b"union" => match self.union(case) {
                Ok(true) => println!(rt; ": as expected"),
                Ok(false) => println!(rt; ": OTHER ROWS"),
                Err(refusal) => println!(rt; ": {}", Refused(refusal)),
            },
            b"rust" => match self.union(case) {
                Ok(same) => println!(rt; ": {}", cases::as_rust(same)),
                Err(refusal) => println!(rt; ": {}, {}", Refused(refusal), cases::as_rust(false)),
            },
            _ => {
                let place = place_of(rt.alloc(), case)?;
                let held = rows::has(case.kind(), &self.a, &place);
                println!(rt; ": {}", Told(held))
            }
        }
    }

    // Takes in a line of the data file: one that fills a state, `case`, which empties them, or a question. A line of another form is a comment.
    fn replay(&mut self, rt: &HostRuntime, case: Case) -> io::Result<()> {
        match case.field_bytes(0) {
            b"case" => self.empty(),
            b"a" => push_rows(case, &mut self.a),
            b"b" => push_rows(case, &mut self.b),
            b"u" => push_rows(case, &mut self.want),
            b"union" | b"rust" | b"has" => self.ask(rt, case)?,
            _ => {}
        }
        Ok(())
    }
}

// The crate's own vectors, and a sample of the published Rust's answers.
fn main(rt: HostRuntime) {
    for path in ["cases", "oracle"] {
        let mut states = States::EMPTY;
        cases::replay_bytes(&rt, path, |case| states.replay(&rt, case));
    }
}
