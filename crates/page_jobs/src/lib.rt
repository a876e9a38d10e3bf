// `page FILE [NAMES]`: a manifest as one HTML page that needs nothing else.
#![tactic(auto)]

mod markup;
mod writing;

use crate::writing::write_page;
use files::{CommandLine, Failure};
use row_labels::rows_of;

// Reads a listing and a name table, if one is named, and writes the page.
pub fn page(line: CommandLine) -> Result<(), Failure> {
    jobs::draw(line, |manifest, names| {
        write_page(line.to, rows_of(manifest), names)
    })
}
