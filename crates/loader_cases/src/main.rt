// Replays the vectors of data/: scripts of calls on the state of one load, and what each call answers and hands out. Of those of data/oracle the
// file stdout has the published Rust's answers.
#![tactic(auto)]

ghost use Rattle.std.specs.Prelude.{◌≤◌};

use cases::{Case, Refused};
use load_items::{Handed, Shown, number_of, words_of};
use load_state::{LoadCounts, LoadRefusal, LoadReply};
use std::alloc::{AllocError, Global};
use std::{fmt, io};

// The one length of each lent buffer (docs/FORMS.md, 'Lent buffers').
const MANIFEST: usize = 4_161;

const CONTEXT: usize = 8_193;

const STATE: usize = 36_874;

const BATCH: usize = 4_096;

const LENT: usize = 24_577;

const REQUESTS: usize = 528_385;

const SLICE: usize = 12_289;

// What stands in a buffer that nothing was written to: no turn, no count and no head.
const BLANK: u64 = 0x5555_5555_5555_5555;

// A call of a script: a word, which is its name and, behind a dash, the number of the buffer that is a word too short; and behind a space items.
#[derive(Clone, Copy)]
struct Call<'a> {
    word: &'a [u8],
    name: &'a [u8],
    short: u64,
    items: &'a [u8],
}

// What stands in front of the first byte `b` of a text, and what stands behind it: all and nothing where there is none.
fn split_once(text: &[u8], b: u8) -> (&[u8], &[u8]) {
    match text.iter().position(|byte| *byte == b) {
        Some(at) => (&text[..at], &text[at + 1..]),
        None => (text, &[]),
    }
}

impl<'a> Call<'a> {
    fn of(field: &'a [u8]) -> Call<'a> {
        let (word, items) = split_once(field, b' ');
        let (name, short) = split_once(word, b'-');
        Call {
            word,
            name,
            short: number_of(short),
            items,
        }
    }

    // How many words of a buffer with a number are lent: one too few where it is the buffer that is to be short.
    fn lent(self, n: u64, words: usize) -> usize
        ensures { result ≤ words }
    {
        if self.short == n {
            words.saturating_sub(1)
        } else {
            words
        }
    }
}

// What a call answers, as it is shown.
#[derive(Clone, Copy)]
struct Told(LoadReply);

impl Told {
    fn is_refused(self) -> bool {
        self.0.is_err()
    }
}

impl fmt::Display for Told {
    fn fmt<W: fmt::Write>(&self, f: &mut fmt::Formatter<W>) -> fmt::Result {
        match self.0 {
            Ok(
                LoadCounts {
                    count,
                    batches,
                    rows,
                },
            ) => write!(f, " {count} {batches} {rows}"),
            Err(LoadRefusal::Refused(refusal)) => write!(f, " {}", Refused(refusal)),
            Err(LoadRefusal::Counted { expected, got }) => {
                write!(f, " refused 12: {expected} expected, {got} got")
            }
        }
    }
}

// A buffer of so many words, with those of some items in front.
fn buffer(alloc: Global, items: &[u8], words: usize) -> Result<Vec<u64>, AllocError> {
    let mut buffer = words_of(alloc, items, words)?;
    buffer.resize(words, BLANK)?;
    Ok(buffer)
}

fn begin(
    alloc: Global,
    case: Case,
    call: Call,
    state: &mut [u64],
) -> Result<LoadReply, AllocError> {
    let manifest = buffer(alloc, case.field_bytes(1), call.lent(1, MANIFEST))?;
    let mut request = words_of(alloc, case.field_bytes(2), 3)?;
    request.resize(3, 0)?;
    let context = buffer(alloc, case.field_bytes(3), call.lent(2, CONTEXT))?;
    let lent = call.lent(3, state.len());
    Ok(load_begin::load_begin(
        &manifest,
        request[0],
        request[1],
        request[2],
        &context,
        &mut state[..lent],
    ))
}

fn answer(alloc: Global, call: Call, state: &mut [u64]) -> Result<LoadReply, AllocError> {
    let answers = buffer(alloc, call.items, call.lent(2, LENT))?;
    let lent = call.lent(1, state.len());
    Ok(loader::load_answer(&mut state[..lent], &answers))
}

fn answer_ancestors(alloc: Global, call: Call, state: &mut [u64]) -> Result<LoadReply, AllocError> {
    let sets = buffer(alloc, call.items, call.lent(2, LENT))?;
    let lent = call.lent(1, state.len());
    Ok(load_ends::load_ancestors_answer(&mut state[..lent], &sets))
}

// Puts a word into the state, at a place; the word and the place are 0 where the call has none.
fn poke(alloc: Global, call: Call, state: &mut [u64]) -> Result<(), AllocError> {
    let mut words = words_of(alloc, call.items, 2)?;
    words.resize(2, 0)?;
    if let Some(word) = state.get_mut(words[0] as usize) {
        *word = words[1];
    }
    Ok(())
}

// Makes the call that hands out what is asked for.
fn hand(handed: Handed, state: &mut [u64], out: &mut [u64]) -> LoadReply {
    match handed {
        Handed::Rows => load_batch::load_batch(state, out),
        Handed::Requests => load_ancestors::load_ancestors(state, out),
        Handed::Slice => load_ends::load_result(state, out),
    }
}

// Takes away what was written from the front of a buffer on.
fn clear(words: &mut [u64]) {
    for word in words.iter_mut() {
        if *word == BLANK {
            return;
        }
        *word = BLANK;
    }
}

// The same on a buffer that nothing was written to, whose items begin at a place, or on one word less of it. A refusal has to leave it so.
fn replay_hand(
    rt: &HostRuntime,
    call: Call,
    handed: Handed,
    from: usize,
    state: &mut [u64],
    out: &mut [u64],
) -> io::Result<Told> {
    let lent_state = call.lent(1, state.len());
    let lent_out = call.lent(2, out.len());
    let reply = hand(handed, &mut state[..lent_state], &mut out[..lent_out]);
    if let Ok(LoadCounts { count, .. }) = reply {
        let words = out.get(from..).unwrap_or(&[]);
        let shown = print!(rt;
            "{}:{}",
            Told(reply),
            Shown {
                handed,
                count,
                words
            }
        );
        clear(out);
        shown?;
    } else {
        print!(rt; "{}", Told(reply))?;
        if out.iter().any(|word| *word != BLANK) {
            print!(rt; " WROTE")?;
        }
    }
    Ok(Told(reply))
}

// A call that hands nothing out.
fn replay_take(rt: &HostRuntime, case: Case, call: Call, state: &mut [u64]) -> io::Result<Told> {
    let reply = match call.name {
        b"begin" => begin(rt.alloc(), case, call, state)?,
        b"answer" => answer(rt.alloc(), call, state)?,
        _ => answer_ancestors(rt.alloc(), call, state)?,
    };
    print!(rt; "{}", Told(reply))?;
    Ok(Told(reply))
}

// Makes a call by its name, and says where a refused one has not left the state as it was. Any other name asks for the result.
fn replay_call(
    rt: &HostRuntime,
    case: Case,
    call: Call,
    state: &mut [u64; STATE],
    requests: &mut [u64],
) -> io::Result<()> {
    let before = *state;
    let told = match call.name {
        b"poke" => return Ok(poke(rt.alloc(), call, state)?),
        b"begin" | b"answer" | b"sets" => replay_take(rt, case, call, state)?,
        b"batch" => {
            let mut out = vec![in rt.alloc(); BLANK; BATCH]?;
            replay_hand(rt, call, Handed::Rows, 0, state, &mut out)?
        }
        b"ancestors" => replay_hand(rt, call, Handed::Requests, 1, state, requests)?,
        _ => {
            let mut out = vec![in rt.alloc(); BLANK; SLICE]?;
            replay_hand(rt, call, Handed::Slice, 1, state, &mut out)?
        }
    };
    if told.is_refused() && *state != before {
        print!(rt; " CHANGED")?;
    }
    Ok(())
}

// Says a case by its name, and what comes of its calls. A tab at the end of the line has no call behind it.
fn replay(rt: &HostRuntime, case: Case, requests: &mut [u64]) -> io::Result<()> {
    cases::print_bytes(rt, case.field_bytes(0))?;
    print!(rt; ":")?;
    let mut state = [BLANK; STATE];
    let line = case.line.strip_suffix(b"\t").unwrap_or(case.line);
    for field in line.split(|b| *b == b'\t').skip(4) {
        let call = Call::of(field);
        print!(rt; " ")?;
        cases::print_bytes(rt, call.word)?;
        replay_call(rt, case, call, &mut state, requests)?;
        print!(rt; ";")?;
    }
    println!(rt)
}

fn main(rt: HostRuntime) {
    let mut requests = [BLANK; REQUESTS];
    for path in ["cases", "cases2", "oracle"] {
        cases::replay_bytes(&rt, path, |case| replay(&rt, case, &mut requests));
    }
}
