// Replays the vectors of data/: texts that are read and written again, contributions that are added in many orders, manifests that are
// united in place.
#![tactic(auto)]

ghost use Rattle.std.specs.Prelude.{◌≤◌};

use cases::{Case, Refused, say, say_number};
use entity_manifest::{EntityManifest, Kind, Refusal};
use std::alloc::{AllocError, Global};
use std::fmt::Display;
use std::io;

// The longest text of a case or of a listing, and the words of a contribution and of a manifest.
const TEXT: usize = 65_536;

const WORDS: usize = 1_026;

const MANIFEST: usize = 4_161;

// How many fields of a case may name contributions.
const FIELDS: usize = 32;

// Puts a line behind a text for each number below n: a head, the number and a tail, as much as there is room for.
fn say_lines(text: &mut Vec<u8>, head: &[u8], n: u16, tail: &[u8]) -> Result<(), AllocError> {
    for number in 0..n {
        say(text, head, TEXT)?;
        say_number(text, u64::from(number), TEXT)?;
        say(text, tail, TEXT)?;
    }
    Ok(())
}

// The text of a case: its own, in escapes, or as many entries of their own type and fields of the principal below the last as it says.
fn text_of(alloc: Global, case: Case) -> Result<Vec<u8>, AllocError> {
    if !case.is(0, b"many") {
        return case.decoded(alloc, 2, TEXT);
    }
    let mut text = Vec::new(alloc);
    say_lines(&mut text, b"A\t1\t1\t", case.number(2), b"\n")?;
    let fields = case.number(3);
    if fields != 0 {
        say(&mut text, b"N\t1\tp\t0\t0\n", TEXT)?;
    }
    say_lines(&mut text, b"N\t2\tf\t", fields, b"\t0\n")?;
    Ok(text)
}

// Writes the listing of a state into `out`, and answers its bytes.
fn listing_of<'a>(kind: Kind, state: &[u64], out: &'a mut [u8]) -> Result<&'a [u8], Refusal> {
    let n = entity_manifest::write_listing(kind, state, out)?;
    Ok(out.get(..n).unwrap_or(&[]))
}

// Reads a text and writes it again: whether that is the same text, or the refusal.
fn is_written_again(kind: Kind, text: &[u8]) -> Result<bool, Refusal> {
    let mut state = [0u64; MANIFEST];
    entity_manifest::read_listing(kind, text, &mut state)?;
    let mut out = [0u8; TEXT];
    Ok(listing_of(kind, &state, &mut out)? == text)
}

// Says a case, and what comes of it.
fn tell<D: Display + Drop>(rt: &HostRuntime, case: Case, told: D) -> io::Result<()> {
    cases::print_bytes(rt, case.line)?;
    println!(rt; " -> {told}")
}

fn ask_text(rt: &HostRuntime, case: Case) -> io::Result<()> {
    let text = text_of(rt.alloc(), case)?;
    match is_written_again(case.kind(), &text) {
        Ok(true) => tell(rt, case, "the same again"),
        Ok(false) => tell(rt, case, "ANOTHER TEXT"),
        Err(refusal) => tell(rt, case, Refused(refusal)),
    }
}

// Fills a manifest with the text of a case, which is told where it is refused, or sets a word of it: its place and its number, in hexadecimal
// digits, are fields of the case.
fn fill(rt: &HostRuntime, case: Case, state: &mut [u64]) -> io::Result<()> {
    if case.is(0, b"word") {
        if let Some(word) = state.get_mut(usize::from(case.number(2))) {
            *word = case.word(3);
        }
        return Ok(());
    }
    let text = text_of(rt.alloc(), case)?;
    match entity_manifest::read_listing(Kind::Manifest, &text, state) {
        Ok(()) => Ok(()),
        Err(refusal) => tell(rt, case, Refused(refusal)),
    }
}

// Says the listing of a manifest, or, where a field of the case has the published Rust's, whether it is that.
fn tell_listing(rt: &HostRuntime, case: Case, field: usize, state: &[u64]) -> io::Result<()> {
    let mut out = [0u8; TEXT];
    match listing_of(Kind::Manifest, state, &mut out) {
        Err(refusal) => println!(rt; "{}", Refused(refusal)),
        Ok(listing) if case.field_bytes(field).is_empty() => {
            println!(rt)?;
            cases::print_bytes(rt, listing)?;
            println!(rt)
        }
        Ok(listing) => {
            let expected = case.decoded(rt.alloc(), field, TEXT)?;
            println!(rt; "{}", cases::as_rust(listing == expected.as_slice()))
        }
    }
}

// How many words of a buffer are lent: as many as a field of a case says, but no more than there are.
fn lent(whole: usize, case: Case, n: usize) -> usize
    ensures { result ≤ whole }
{
    whole.min(usize::from(case.number(n)))
}

// Whether a state has the rows of an expected one, and behind them the words that it had before.
fn has_rows(state: &[u64; MANIFEST], want: &[u64; MANIFEST], before: &[u64; MANIFEST]) -> bool {
    let end = MANIFEST.min((want[0] as usize).saturating_add(1));
    &state[..end] == &want[..end] && &state[end..] == &before[end..]
}

// Unites a copy of a manifest with another one, as many words of each as a case says, and holds it against the expected one, or after a refusal
// against the manifest itself.
fn ask_unite(
    rt: &HostRuntime,
    case: Case,
    manifest: &[u64; MANIFEST],
    other: &[u64; MANIFEST],
    want: &[u64; MANIFEST],
) -> io::Result<()> {
    cases::print_bytes(rt, case.field_bytes(1))?;
    let mut state = *manifest;
    let m = lent(MANIFEST, case, 2);
    let o = lent(MANIFEST, case, 3);
    match EntityManifest::unite_manifests(&mut state[..m], &other[..o]) {
        Ok(()) if has_rows(&state, want, manifest) => println!(rt; ": as expected"),
        Err(refusal) if state == *manifest => println!(rt; ": {}, as it was", Refused(refusal)),
        Ok(()) => println!(rt; ": OTHER WORDS"),
        Err(refusal) => println!(rt; ": {}, OTHER WORDS", Refused(refusal)),
    }
}

// Contributions that are kept by their number, and two manifests with the one that is expected of them. The words of the manifests are no rows at
// first, so that one more or less shows.
#[derive(Drop)]
struct States {
    kept: [[u64; WORDS]; 8],
    left: [u64; MANIFEST],
    right: [u64; MANIFEST],
    want: [u64; MANIFEST],
}

impl States {
    const START: States = States {
        kept: [[0; WORDS]; 8],
        left: [7; MANIFEST],
        right: [8; MANIFEST],
        want: [9; MANIFEST],
    };

    // Keeps the contribution of a text under a number.
    fn keep(&mut self, number: usize, text: &[u8]) -> Result<(), Refusal> {
        let Some(state) = self.kept.get_mut(number) else {
            return Err(Refusal::UNLAWFUL);
        };
        entity_manifest::read_listing(Kind::Contribution, text, state)
    }

    // Keeps the contribution of a case, and says so, or is silent unless it is refused.
    fn ask_keep(&mut self, rt: &HostRuntime, case: Case, is_silent: bool) -> io::Result<()> {
        let text = text_of(rt.alloc(), case)?;
        match self.keep(usize::from(case.number(1)), &text) {
            Ok(()) if is_silent => Ok(()),
            Ok(()) => tell(rt, case, "kept"),
            Err(refusal) => tell(rt, case, Refused(refusal)),
        }
    }

    // Adds the kept contributions that a case names from a field on, in its order. After them stand an empty field and the Rust's listing, or
    // nothing.
    fn ask_order(&self, rt: &HostRuntime, case: Case, from: usize) -> io::Result<()> {
        let end = (from..FIELDS)
            .find(|n| case.field_bytes(*n).is_empty())
            .unwrap_or(FIELDS);
        let mut state = [0u64; MANIFEST];
        for n in from..end {
            if let Some(kept) = self.kept.get(usize::from(case.number(n))) {
                if let Err(refusal) = EntityManifest::add(&mut state, kept) {
                    print!(rt; "{}, ", Refused(refusal))?;
                }
            }
        }
        tell_listing(rt, case, end.saturating_add(1), &state)
    }

    // Takes in a line of a data file: one that fills a manifest, or a case, and says what comes of it.
    fn replay(&mut self, rt: &HostRuntime, case: Case) -> io::Result<()> {
        match (case.field_bytes(0), case.field_bytes(1)) {
            (_, b"left") => fill(rt, case, &mut self.left),
            (_, b"right") => fill(rt, case, &mut self.right),
            (_, b"want") => fill(rt, case, &mut self.want),
            (b"unite", _) => ask_unite(rt, case, &self.left, &self.right, &self.want),
            (b"back", _) => ask_unite(rt, case, &self.right, &self.left, &self.want),
            (b"hold", _) => self.ask_keep(rt, case, true),
            (b"keep", _) => self.ask_keep(rt, case, false),
            (b"rust", name) => {
                cases::print_bytes(rt, name)?;
                print!(rt; ": ")?;
                self.ask_order(rt, case, 2)
            }
            (b"order", _) => {
                cases::print_bytes(rt, case.line)?;
                print!(rt; " -> ")?;
                self.ask_order(rt, case, 1)
            }
            _ => ask_text(rt, case),
        }
    }
}

// The crate's own vectors, a sample of the published Rust's answers, and the vectors of uniting in place.
fn main(rt: HostRuntime) {
    for path in ["cases", "oracle", "unite"] {
        let mut states = States::START;
        cases::replay_bytes(&rt, path, |case| states.replay(&rt, case));
    }
}
