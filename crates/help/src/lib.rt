// What the program says of itself, and its commands by their names.
#![tactic(auto)]

use files::{Failure, To, write};

// What a word names.
#[derive(Clone, Copy, PartialEq, Eq, Debug)]
pub enum Command {
    Build,
    Steps,
    List,
    Merge,
    Type,
    Load,
    Trips,
    Tree,
    Page,
    Help,
}

impl Command {
    // The command that a word names.
    pub fn named(word: &[u8]) -> Option<Command> {
        match word {
            b"build" => Some(Command::Build),
            b"steps" => Some(Command::Steps),
            b"list" => Some(Command::List),
            b"merge" => Some(Command::Merge),
            b"type" => Some(Command::Type),
            b"load" => Some(Command::Load),
            b"trips" => Some(Command::Trips),
            b"tree" => Some(Command::Tree),
            b"page" => Some(Command::Page),
            b"help" => Some(Command::Help),
            _ => None,
        }
    }
}

const BUILD: &[u8] =
    b"terbagyl build [--typed] SCHEMA FILE...\n\nReads a schema, analyses each FILE, a policy text, adds what its contributions read to an empty manifest and writes the listing of that:\nall of them, or nothing and a refusal. The order of the FILEs does not matter. An empty policy text has no contribution.\nNames and types of the steps are not checked against the schema: only full asks it, for a type by its number.\nWith --typed what was built is typed by the schema as type does it, and the listing of what stays is written, or nothing and a refusal.\n";

const STEPS: &[u8] =
    b"terbagyl steps P A R SCHEMA FILE\n\nAnalyses FILE, a step text, with a schema and under the request type of principal type P, action A and resource type R, ids from 0 to 65535,\nand writes the contribution: a listing of one request type.\n";

const LIST: &[u8] =
    b"terbagyl list FILE\n\nReads FILE, a listing, and writes it again, byte for byte; or refuses it with the first line that is not lawful.\n";

const MERGE: &[u8] =
    b"terbagyl merge FILE...\n\nAdds all entries of each FILE, a listing or a contribution with one entry or more, to an empty manifest and writes the listing of that:\nall of them, or nothing and a refusal. The order of the FILEs does not matter.\n";

const TYPE: &[u8] =
    b"terbagyl type SCHEMA FILE\n\nReads a schema and FILE, a listing, types each node by the schema and writes the listing of what stays: fields that their type lacks are dropped,\nwith all below them. Node types are not written. The first node that cannot be typed is refused, by its number among the N lines from 0:\n9, the schema lacks the literal or action; 10, its type is not strict; 11, it has fields and its type has none.\n";

const LOAD: &[u8] =
    b"terbagyl load MANIFEST REQUEST STORE...\n\nReads a listing, a request and a store, loads what the manifest has the request read, and writes the log: each batch (B) with its rows (Q),\nthe ancestors requests (K), what was loaded (E, P and V), and how many batches and rows there were (Z).\nSeveral STOREs, at most eight, are copies that answer in turn: row or request K of the load, from 0, is answered by number K mod their count.\nA load that is refused ends its log with R, the number and the place, and says why: 13, two answers to one entity do not agree;\n14, a value is not of a kind that the manifest can read there; 15, too much is loaded or asked for.\n";

const TRIPS: &[u8] =
    b"terbagyl trips FILE [NAMES]\n\nReads FILE, a listing, and says for each request type what a load of such a request takes at most, whatever the store answers: rows asked for,\nbatches in which they are asked for, and the one ancestors call, which comes on top. With NAMES, a name table, names stand for ids.\nA request type that the listing has not takes nothing.\n";

const TREE: &[u8] =
    b"terbagyl tree FILE [NAMES]\n\nReads FILE, a listing, and draws it as a tree: each request type, and below it what a decision on such a request reads, a line each,\ntwo spaces deeper than what it belongs to. With NAMES, a name table, names stand for ids; where one is missing the id stands.\nBelow `ancestors named by` stands where the ids of those ancestors come from that are read of the entity above it, and a line with\n`(asked for as an ancestor)` is one of them.\n";

const PAGE: &[u8] =
    b"terbagyl page FILE [NAMES]\n\nReads FILE, a listing, and writes it as one HTML page for a browser: the request types as a list, and each as a tree that can be folded\nand searched, in the words of tree. The page needs nothing else and asks for nothing from a network.\n";

const COMMANDS: &[u8] =
    b"usage: terbagyl COMMAND ...\n\n  build SCHEMA FILE...      analyse policy texts, and write the listing of their manifest\n  build --typed SCHEMA FILE...\n                            the same, typed by the schema\n  steps P A R SCHEMA FILE   analyse a step text under a request type, and write the contribution\n  list FILE                 read a listing, and write it again\n  merge FILE...             add listings or contributions to each other, and write the listing\n  type SCHEMA FILE          type a listing by a schema, and write the listing of what stays\n  load MANIFEST REQUEST STORE...\n                            load what a manifest has a request read from a store, and write the log\n  trips FILE [NAMES]        say how many batches and rows a load takes at most, with names from a name table\n  tree FILE [NAMES]         draw a listing as a tree, with names from a name table\n  page FILE [NAMES]         write a listing as an HTML page, with names from a name table\n  help [COMMAND]            this text, or more of a command; also -h and --help\n  --version                 which version this is\n\n";

const FORMS: &[u8] =
    b"A FILE may be a pipe or /dev/stdin and is read once. A line ends in LF, and one tab parts two fields.\n\n  listing       A lines (request types), each with its N lines (what is read)\n  contribution  a listing with one A line\n  policy text   A lines, each with the step lines of a contribution\n  step text     step lines: var lit none attr union drop full in set rec\n  schema        T, E, F, L and C lines\n  request       a Q line (who asks), with the V lines of its context\n  store         E lines (entities), each with its P, U and V lines (parents, ancestors, attributes)\n  name table    t, e and f lines (entity types, entities, fields), each an id and its name\n\ndocs/FORMS.md has every form, and every number with which a text is refused.\n\n";

const STATUSES: &[u8] =
    b"Status 0: done, and the result is on standard output.\nStatus 1: a text is refused, `FILE: refused N at P (line L): reason`; or a load is, and its log is on standard output.\nStatus 2: the command line, a file or standard output cannot be used, `cannot: reason`.\n";

const VERSION: &[u8] = b"terbagyl 0.3, after entity_manifest of cedar-policy-validator 4.4.1\n";

// All commands, forms and statuses.
pub fn say_all(to: To) -> Result<(), Failure> {
    write(to, COMMANDS)?;
    write(to, FORMS)?;
    write(to, STATUSES)
}

// A command.
pub fn say_command(to: To, command: Command) -> Result<(), Failure> {
    match command {
        Command::Build => write(to, BUILD),
        Command::Steps => write(to, STEPS),
        Command::List => write(to, LIST),
        Command::Merge => write(to, MERGE),
        Command::Type => write(to, TYPE),
        Command::Load => write(to, LOAD),
        Command::Trips => write(to, TRIPS),
        Command::Tree => write(to, TREE),
        Command::Page => write(to, PAGE),
        Command::Help => say_all(to),
    }
}

pub fn say_version(to: To) -> Result<(), Failure> {
    write(to, VERSION)
}
