// The listing of a manifest or a contribution, written and read.
ghost use Rattle.std.specs.Prelude.{◌≡◌};
ghost use Rattle.listing.specs.Outcomes.{bytes_of, read_listing_in, write_in};

use crate::reading::read_rows;
use listing_lines::write_rows;
use rows::Kind;
use words::Refusal;

// The length of a text out.
fn text_len(kind: Kind) -> usize
    ensures { result ≡ bytes_of kind }
{
    match kind {
        Kind::Contribution => 15_380,
        Kind::Manifest => 62_720,
    }
}

// Writes the listing of a lawful state.
pub fn write_listing(kind: Kind, state: &[u64], out: &mut [u8]) -> Result<usize, Refusal>
    ensures { (result ≡ (write_in kind state.now out.old).reply) × (out.new ≡ (write_in kind state.now out.old).buffer) }
{
    if state.len() < kind.words() {
        return Err(Refusal::SHORT);
    }
    if out.len() < text_len(kind) {
        return Err(Refusal::SHORT);
    }
    if !rows::is_lawful(kind, state) {
        return Err(Refusal::UNLAWFUL);
    }
    let end = state[0] as usize + 1;
    Ok(write_rows(out, &state[1..end]))
}

// Reads a listing into a state; a refusal leaves the state as it was.
pub fn read_listing(kind: Kind, text: &[u8], out: &mut [u64]) -> Result<(), Refusal>
    ensures { (result ≡ (read_listing_in kind text.now out.old).reply) × (out.new ≡ (read_listing_in kind text.now out.old).buffer) }
{
    let words = kind.words();
    if out.len() < words {
        return Err(Refusal::SHORT);
    }
    let mut rows = [0u64; 4_161];
    let count = read_rows(kind.limits(), text, &mut rows)?;
    if count == 0 && kind == Kind::Contribution {
        return Err(Refusal::UNLAWFUL);
    }
    rows[0] = count;
    words::copy_rows(&rows, out);
    Ok(())
}
