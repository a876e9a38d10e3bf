// The program's commands: which words a command line has, and the job that they ask for.
#![tactic(auto)]

use files::{CommandLine, Failure, To, Words};
use help::Command;
use messages::say_misused;

// A command line that cannot be used, for a reason and with a word that it is about.
fn misused_word(to: To, reason: &[u8], about: &[u8]) -> Failure {
    say_misused(to.err, reason, about);
    Failure::Cannot
}

// The same for a reason that is about no word.
fn misused(to: To, reason: &[u8]) -> Failure {
    misused_word(to, reason, b"")
}

// The command that a word names.
fn command_of(to: To, word: &[u8]) -> Result<Command, Failure> {
    Command::named(word).ok_or_else(|| misused_word(to, b"there is no command ", word))
}

// The id that word i writes.
fn id_word(line: CommandLine, i: usize, reason: &[u8]) -> Result<u16, Failure> {
    text::read_decimal(line.word(i).bytes())
        .and_then(|id| u16::try_from(id).ok())
        .ok_or_else(|| misused(line.to, reason))
}

// `steps P A R SCHEMA FILE`: the request type of P, A and R, and what the steps come to under it.
fn steps(line: CommandLine) -> Result<(), Failure> {
    if line.count != 7 {
        return Err(misused(line.to, b"steps takes P A R, a schema and a file"));
    }
    let principal = id_word(line, 2, b"P is an id from 0 to 65535")?;
    let action = id_word(line, 3, b"A is an id from 0 to 65535")?;
    let resource = id_word(line, 4, b"R is an id from 0 to 65535")?;
    let request = (u64::from(principal) * 0x1_0000 + u64::from(action)) * 0x1_0000
        + u64::from(resource);
    policy_jobs::analyse(line, request)
}

// `help COMMAND`
fn help_of(line: CommandLine, i: usize) -> Result<(), Failure> {
    let command = command_of(line.to, line.word(i).bytes())?;
    help::say_command(line.to, command)
}

// `help`, alone or with a command.
fn help(line: CommandLine) -> Result<(), Failure> {
    match line.count {
        2 => help::say_all(line.to),
        3 => help_of(line, 2),
        _ => Err(misused(line.to, b"help takes one command")),
    }
}

// Whether a word asks for help.
fn is_help(word: &[u8]) -> bool {
    matches!(word, b"--help" | b"-h")
}

// `build SCHEMA FILE...` and `build --typed SCHEMA FILE...`
fn build(line: CommandLine) -> Result<(), Failure> {
    if line.count < 4 {
        return Err(misused(line.to, b"build takes a schema and a file or more"));
    }
    if line.word(2).bytes() != b"--typed".as_slice() {
        return policy_jobs::build(line);
    }
    if line.count < 5 {
        return Err(misused(line.to, b"build --typed takes a schema and a file or more"));
    }
    policy_jobs::build_typed(line)
}

// `load MANIFEST REQUEST STORE...`
fn load(line: CommandLine) -> Result<(), Failure> {
    if line.count < 5 {
        return Err(misused(
            line.to,
            b"load takes a manifest, a request and a store or more",
        ));
    }
    if 4 + load_jobs::STORES < line.count {
        return Err(misused(line.to, b"load takes at most eight stores"));
    }
    load_jobs::load(line)
}

// `list FILE`
fn list(line: CommandLine) -> Result<(), Failure> {
    if line.count != 3 {
        return Err(misused(line.to, b"list takes one file"));
    }
    listing_jobs::list(line)
}

// `type SCHEMA FILE`
fn type_listing(line: CommandLine) -> Result<(), Failure> {
    if line.count != 4 {
        return Err(misused(line.to, b"type takes a schema and a file"));
    }
    listing_jobs::type_listing(line)
}

// `merge FILE...`
fn merge(line: CommandLine) -> Result<(), Failure> {
    if line.count < 3 {
        return Err(misused(line.to, b"merge takes a file or more"));
    }
    listing_jobs::merge(line)
}

// `trips FILE [NAMES]`, `tree FILE [NAMES]` and `page FILE [NAMES]`
fn draw<F: FnOnce(CommandLine) -> Result<(), Failure>>(
    line: CommandLine,
    reason: &[u8],
    job: F,
) -> Result<(), Failure>
    requires { F.IsAlwaysCallable job }
{
    match line.count {
        3 | 4 => job(line),
        _ => Err(misused(line.to, reason)),
    }
}

// The job of a command.
fn run_command(line: CommandLine, command: Command) -> Result<(), Failure> {
    match command {
        Command::Build => build(line),
        Command::Steps => steps(line),
        Command::List => list(line),
        Command::Merge => merge(line),
        Command::Type => type_listing(line),
        Command::Load => load(line),
        Command::Trips => draw(
            line,
            b"trips takes a file, and a name table or none",
            trip_jobs::trips,
        ),
        Command::Tree => draw(
            line,
            b"tree takes a file, and a name table or none",
            tree_jobs::tree,
        ),
        Command::Page => draw(
            line,
            b"page takes a file, and a name table or none",
            page_jobs::page,
        ),
        Command::Help => help(line),
    }
}

// What a command line asks for by its first word: help, the version, or a command.
fn run_word(line: CommandLine, word: &[u8]) -> Result<(), Failure> {
    match word {
        b"help" | b"--help" | b"-h" => return help(line),
        b"--version" => return help::say_version(line.to),
        _ => {}
    }
    if line.count == 3 && is_help(line.word(2).bytes()) {
        return help_of(line, 1);
    }
    if line.has_input_twice() {
        return Err(misused(line.to, b"/dev/stdin is named twice, and can be read once"));
    }
    run_command(line, command_of(line.to, word)?)
}

// Runs a command line.
pub fn run(to: To, words: Words) -> Result<(), Failure> {
    let line = CommandLine::new(to, words);
    if line.count < 2 {
        return Err(misused(to, b"there is no command"));
    }
    run_word(line, line.word(1).bytes())
}
