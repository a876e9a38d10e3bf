// The program: runs its arguments as a command line, and ends with a line on standard error that has the status, for the script alone.
#![tactic(auto)]

use files::{Failure, Stream, To, Words};

// Runs the arguments, and sees that what was written is kept.
fn run(to: To) -> Result<(), Failure> {
    commands::run(to, Words::Arguments)?;
    files::finish(to)
}

fn main(rt: HostRuntime) {
    let to = To {
        rt,
        out: Stream::Out(rt.stdout()),
        err: Stream::Err(rt.stderr()),
    };
    let status = files::status_of(run(to));
    let _ = println!(to.err; "terbagyl: status {status}");
}
