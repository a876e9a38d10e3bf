// Lines to rows, each judged after those before it.
ghost use Rattle.std.specs.Prelude.{◌≡◌, false, ◌+◌, ◌<◌, ◌≤◌, length};
ghost use Rattle.rules.specs.Listing.{read, refusal as refusal_of};
ghost use Rattle.listing_lines.specs.Lines.{RowFits};
ghost use Rattle.listing.specs.Reads.{form_for, sofar_in, refused_by, RowRoom, RowTaken, rows_by, row_words, rows_got, row_count};

use listing_lines::ParsedRow;
use listing_reader::read_row;
use rows::{Kind, Limits, Row};
use words::Refusal;

// Where reading has come to: the length of the last row's place, and how many entries and nodes there are.
#[derive(Clone, Copy, PartialEq, Eq, Debug)]
pub struct Sofar {
    pub len: usize,
    pub entries: u64,
    pub nodes: u64,
}

// Judges a row after others: `Err` with the number that refuses it, the first of 1, 2, 3, 5, 4.
fn judge(limits: Limits, path: &[u64], sofar: Sofar, depth: u64, step: u64) -> Result<(), u64>
    requires { sofar.len ≤ length path.now }
    ensures { refused_by result ≡ refusal_of (form_for limits) (sofar_in sofar path.now) (read depth step false) }
{
    if depth == 0 && limits.single && 0 < sofar.entries {
        return Err(1);
    }
    let len = sofar.len as u64;
    if len < depth {
        return Err(2);
    }
    if depth < len && step <= path[depth as usize] {
        return Err(2);
    }
    if Kind::STEPS < depth {
        return Err(3);
    }
    if depth == 0 {
        if limits.entries <= sofar.entries {
            return Err(5);
        }
    } else if limits.nodes <= sofar.nodes {
        return Err(4);
    }
    Ok(())
}

// Takes one row: it goes behind the others, its step into the path. Answers where reading has come to, or the number that refuses the row.
fn take_row(
    limits: Limits,
    row: ParsedRow,
    path: &mut [u64],
    rows: &mut [u64],
    sofar: Sofar,
) -> Result<Sofar, u64>
    requires row_room { RowRoom limits sofar path.old rows.old }
    requires row_fits { RowFits (read row.depth row.step row.marked) }
    ensures { RowTaken limits sofar (read row.depth row.step row.marked) path.old rows.old path.new rows.new result }
{
    judge(limits, path, sofar, row.depth, row.step)?;
    let at = row.depth as usize;
    path[at] = row.step;
    let end = (sofar.entries + sofar.nodes) as usize + 1;
    if at == 0 {
        rows[end] = Row::entry(row.step).word;
        return Ok(Sofar {
            len: 1,
            entries: sofar.entries + 1,
            nodes: sofar.nodes,
        });
    }
    rows[end] = Row::node(row.depth, row.step, row.marked).word;
    Ok(Sofar {
        len: at + 1,
        entries: sofar.entries,
        nodes: sofar.nodes + 1,
    })
}

// Reads all lines of a text into rows, from place 1 on. Answers how many rows there are, or a refusal at its line.
pub fn read_rows(limits: Limits, text: &[u8], rows: &mut [u64]) -> Result<u64, Refusal>
    requires { limits.entries + limits.nodes < length rows.old }
    ensures rows_after { rows_got result rows.new ≡ row_words (rows_by limits text.now) }
    ensures result_bound { row_count result ≤ limits.entries + limits.nodes }
{
    let mut path = [0u64; 25];
    let mut sofar = Sofar {
        len: 0,
        entries: 0,
        nodes: 0,
    };
    let mut at = 0;
    let mut line: u64 = 0;
    while at < text.len() {
        let row = read_row(text, at).ok_or(Refusal {
            number: 1,
            place: line,
        })?;
        sofar = take_row(limits, row, &mut path, rows, sofar).map_err(|number| Refusal {
            number,
            place: line,
        })?;
        at = row.end + 1;
        line += 1;
    }
    Ok(sofar.entries + sofar.nodes)
}
