// Replays the texts of data/ by `cases::replay`: the first fields of each case as text, and what was answered at the end.
#![tactic(auto)]

use cases::Case;
use std::io;

// Says three fields of a case as text; a case whose first field is `stop` fails.
fn replay(rt: &HostRuntime, case: Case) -> io::Result<()> {
    if case.field(0) == "stop" {
        return Err(io::ErrorKind::Other.into());
    }
    println!(rt;
        "[{}] [{}] [{}]",
        case.field(0),
        case.field(1),
        case.field(2)
    )
}

fn main(rt: HostRuntime) -> io::Result<()> {
    for path in ["cases", "long", "stopped", "damaged", "missing"] {
        match cases::replay(&rt, path, |case| replay(&rt, case)) {
            Ok(()) => println!(rt; "{path} is replayed")?,
            Err(error) => println!(rt; "{path} ends with {error}")?,
        }
    }
    // All fields that `cases::replay` hands out are UTF-8: a line with another one is made here.
    replay(
        &rt,
        Case {
            line: b"no text\t\xff\tand text",
        },
    )
}
