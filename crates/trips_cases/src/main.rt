// Replays the vectors of data/: what a load for a request type takes at most by a manifest, or the refusal.
#![tactic(auto)]

ghost use Rattle.std.specs.Prelude.{◌≤◌};

use cases::{Case, Refused};
use rows::Kind;
use std::alloc::Global;
use std::io;

// The longest text of a case.
const TEXT: usize = 65_536;

// The words of a manifest, and one more, so that a buffer can be too long too.
const MANIFEST: usize = 4_162;

// The listing of a case, and many lines and an end behind it where the case is of that kind.
fn text_of(alloc: Global, case: Case) -> io::Result<Vec<u8>> {
    let mut text = case.decoded(alloc, 2, TEXT)?;
    if case.is(0, b"many") {
        case.decode_many(6, 7, 8, &mut text, TEXT)?;
        case.decode(9, &mut text, TEXT)?;
    }
    Ok(text)
}

// The request type of a case, of three numbers, or as one where the case is of that kind.
fn request_of(case: Case) -> u64 {
    if case.is(0, b"raw") {
        case.word(3)
    } else {
        case.triple(3)
    }
}

// Sets a word of the manifest, where the case is of that kind.
fn set_word(case: Case, state: &mut [u64]) {
    if case.is(0, b"set")
        && let Some(word) = state.get_mut(usize::from(case.number(6)))
    {
        *word = case.word(7);
    }
}

// How many words of the manifest are lent: all, but as many as a field says where the case is of that kind.
fn lent(case: Case) -> usize
    ensures { result ≤ 4162 }
{
    if case.is(0, b"lent") {
        MANIFEST.saturating_sub(usize::from(case.number(6)))
    } else {
        MANIFEST
    }
}

// Reads the manifest of a case, asks for the bound, and says it.
fn replay(rt: &HostRuntime, case: Case) -> io::Result<()> {
    cases::print_bytes(rt, case.field_bytes(1))?;
    print!(rt; ": ")?;
    let text = text_of(rt.alloc(), case)?;
    let mut state = [0u64; MANIFEST];
    if let Err(refusal) = listing::read_listing(Kind::Manifest, &text, &mut state) {
        return println!(rt; "LISTING {}", Refused(refusal));
    }
    set_word(case, &mut state);
    match entries::trip_bound(&state[..lent(case)], request_of(case)) {
        Ok(most) => {
            println!(rt;
                "rows {} batches {} ancestors {}",
                most.rows, most.batches, most.ancestors
            )
        }
        Err(refusal) => println!(rt; "{}", Refused(refusal)),
    }
}

fn main(rt: HostRuntime) {
    cases::replay_bytes(&rt, "cases", |case| replay(&rt, case));
}
