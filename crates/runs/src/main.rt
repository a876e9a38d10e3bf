// Replays command lines of the program: each line of `runs`, what it writes and says, and its status.
#![tactic(auto)]

use cases::Case;
use files::{Stream, To, Words, status_of};

// Says a command line, runs it, and says its status.
fn replay(to: To, case: Case) {
    files::say(to.out, b"$ terbagyl ");
    files::say(to.out, case.line);
    files::say(to.out, b"\n");
    let status = status_of(commands::run(to, Words::Line(case.line)));
    let _ = println!(to.out; "status {status}");
}

fn main(rt: HostRuntime) {
    let to = To {
        rt,
        out: Stream::Out(rt.stdout()),
        err: Stream::Out(rt.stdout()),
    };
    cases::replay_bytes(&rt, "runs", |case| {
        replay(to, case);
        Ok(())
    })
}
