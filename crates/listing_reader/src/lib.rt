// A reader of the listing: the text, and its place in it. Callers use `read_row`, whose parameters are a plain slice and a number.
#![tactic(auto)]

ghost use Rattle.std.specs.Prelude.{◌≡◌, ◌<◌, length};
ghost use Rattle.listing_lines.specs.Lines.{row_read, row_at};

use listing_lines::ParsedRow;

// The text, and the place in it that the line to read begins at.
#[derive(Clone, Copy, Debug)]
pub struct Reader<'a> {
    pub text: &'a [u8],
    pub at: usize,
}

impl<'a> Reader<'a> {
    // A reader that stands at a place of a text.
    pub fn new(text: &'a [u8], at: usize) -> Reader<'a>
        ensures { (result.text ≡ text.entry) × (result.at ≡ at) }
    {
        Reader { text, at }
    }

    // The row of the line that begins where the reader stands.
    pub fn row(self) -> Option<ParsedRow>
        requires { self.at < length self.text.now }
        ensures { row_read result ≡ row_at self.entry.text.now self.entry.at }
    {
        listing_lines::parse(self.text, self.at)
    }
}

// The row of the line that begins at a place of a text.
pub fn read_row(text: &[u8], at: usize) -> Option<ParsedRow>
    requires { at < length text.now }
    ensures { row_read result ≡ row_at text.now at }
{
    Reader::new(text, at).row()
}
