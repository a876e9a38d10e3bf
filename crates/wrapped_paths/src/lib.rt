// Wrapped paths as words of 16 bits: a head and what it wraps behind it, the right side of a union and the last field of a record first. So
// results that are pushed stand in front of those below them, and wrapping them puts a head in front.
#![tactic(auto)]

ghost use Rattle.std.specs.Prelude.{◌≡◌, [], ◌∷◌, ◌+◌, ◌^◌, ◌<◌, ◌≤◌, length, get_or};
ghost use Rattle.wrapped_paths.specs.Code.{head_of, head_word, root_in, size_of, wraps_of, steps_at, IsPlace, Standing, Measures, ResultStands, FoundAt, ExtendedAt};
ghost use Rattle.wrapped_paths.specs.Turns.{places_for, Noted, sides_of, TurnTook, Gained, Literal, FieldTaken, TurnRoom, Growing, Turned};

use words::copy_words;

// What a head says: a path has a root of some kind and the ids of so many steps behind it, a record so many names and then as many fields.
#[derive(Clone, Copy, PartialEq, Eq, Debug)]
pub enum WrappedAccessPaths {
    Empty,
    AccessPath(u16, usize),
    Union,
    RecordLiteral(usize),
    SetLiteral,
}

// How far some wrapped paths go, and how many path nodes they have.
#[derive(Drop)]
pub struct Measured {
    pub end: usize,
    pub nodes: u64,
}

// The places after what was read and after what was written.
#[derive(Drop)]
pub struct Moved {
    pub from: usize,
    pub to: usize,
}

// What `attr` gives: so many words, and so many paths that gained the field.
#[derive(Drop)]
pub struct Extended {
    pub words: usize,
    pub grown: usize,
}

impl WrappedAccessPaths {
    // A result has at most so many path nodes.
    pub const NODES: u64 = 256;

    // So no more paths are in it.
    pub const PATHS: usize = WrappedAccessPaths::NODES as usize;

    // A union has two sides.
    const SIDES: usize = 2;

    // The words of a result's paths: each node at most 26, a path of 24 steps with its head and its name in a record.
    pub const WORDS: usize = 6_656;

    // What a word says.
    pub fn of(word: u16) -> WrappedAccessPaths
        ensures value { result ≡ head_of word }
        ensures result_bound { size_of result < 2 ^ 61 }
    {
        let what = word % 8;
        let count = (word / 64) as usize;
        match what {
            0 => WrappedAccessPaths::Empty,
            1 => WrappedAccessPaths::AccessPath(word / 8 % 8, count),
            2 => WrappedAccessPaths::Union,
            3 => WrappedAccessPaths::SetLiteral,
            _ => WrappedAccessPaths::RecordLiteral(count),
        }
    }

    // The word that says it.
    pub fn word(self) -> u16
        requires { (root_in self < 8) × (size_of self < 512) }
        ensures { result ≡ head_word self }
    {
        match self {
            WrappedAccessPaths::Empty => 0,
            WrappedAccessPaths::AccessPath(kind, steps) => 1 + 8 * kind + 64 * steps as u16,
            WrappedAccessPaths::Union => 2,
            WrappedAccessPaths::SetLiteral => 3,
            WrappedAccessPaths::RecordLiteral(fields) => 4 + 64 * fields as u16,
        }
    }

    // How many words it takes by itself: its head, and its steps or names.
    pub fn words(self) -> usize
        requires { size_of self < 2 ^ 61 }
        ensures { result ≡ 1 + size_of self }
    {
        match self {
            WrappedAccessPaths::AccessPath(_, steps) => 1 + steps,
            WrappedAccessPaths::RecordLiteral(fields) => 1 + fields,
            _ => 1,
        }
    }

    // How many wrapped paths it wraps.
    fn wraps(self) -> usize
        ensures { result ≡ wraps_of self }
    {
        match self {
            WrappedAccessPaths::Empty | WrappedAccessPaths::AccessPath(_, _) => 0,
            WrappedAccessPaths::Union => 2,
            WrappedAccessPaths::SetLiteral => 1,
            WrappedAccessPaths::RecordLiteral(fields) => fields,
        }
    }

    // How many wrapped paths behind it `attr` extends too: the sides of a union.
    fn sides(self) -> usize
        ensures { result ≡ sides_of self }
    {
        match self {
            WrappedAccessPaths::Union => WrappedAccessPaths::SIDES,
            _ => 0,
        }
    }
}

// How many steps the path has whose head stands at a place.
pub fn steps_at(code: &[u16], at: usize) -> u64
    requires { at < length code.now }
    ensures { result ≡ steps_at code.now at }
{
    u64::from(code[at]) / 64
}

// How far so many wrapped paths go from a place on.
pub fn measure(code: &[u16], at: usize, count: usize) -> Measured
    requires { Standing code.now at count }
    ensures { Measures code.now at count result.end result.nodes }
{
    let mut from = at;
    let mut left = count;
    let mut nodes: u64 = 0;
    while 0 < left {
        let head = WrappedAccessPaths::of(code[from]);
        from += head.words();
        left = left - 1 + head.wraps();
        nodes += 1;
    }
    Measured { end: from, nodes }
}

// Notes the place of a head behind so many others, if it is that of a path, and answers how many there are then.
fn note_path(head: WrappedAccessPaths, at: usize, places: &mut [u64], found: usize) -> usize
    requires { found < length places.old }
    ensures { Noted places.old found (places_for head at) places.new result }
{
    match head {
        WrappedAccessPaths::AccessPath(_, _) => note_place(at, places, found),
        _ => found,
    }
}

// Notes a place behind so many others, and answers how many there are then.
fn note_place(at: usize, places: &mut [u64], found: usize) -> usize
    requires { found < length places.old }
    ensures { Noted places.old found (at ∷ []) places.new result }
{
    places[found] = at as u64;
    found + 1
}

// The places of all paths among the wrapped paths at a place, and how many there are.
pub fn paths_in(code: &[u16], at: usize, places: &mut [u64]) -> usize
    requires { ResultStands code.now at × (length places.old ≡ 256) }
    ensures { FoundAt code.now at places.new result }
{
    let mut from = at;
    let mut left: usize = 1;
    let mut found = 0;
    while 0 < left {
        let head = WrappedAccessPaths::of(code[from]);
        found = note_path(head, from, places, found);
        from += head.words();
        left = left - 1 + head.wraps();
    }
    found
}

// The place of a name among names, if it is one of them.
pub fn name_place(names: &[u16], name: u64) -> Option<usize>
    ensures { IsPlace names.now name result }
{
    names.iter().position(|other| u64::from(*other) == name)
}

// A record literal's field, or the literal itself where it has not that field.
fn take_field(
    code: &[u16],
    at: usize,
    fields: usize,
    name: u64,
    out: &mut [u16],
    to: usize,
) -> Moved
    requires { Literal code.now at fields name out.old to }
    ensures { FieldTaken code.now at fields name out.old to out.new result }
{
    let names = at + 1;
    let first = names + fields;
    let end = measure(code, first, fields).end;
    let Some(place) = name_place(&code[names..first], name) else {
        return Moved {
            from: end,
            to: copy_words(&code[at..end], out, to),
        };
    };
    let field = measure(code, first, place).end;
    let field_end = measure(code, field, 1).end;
    Moved {
        from: end,
        to: copy_words(&code[field..field_end], out, to),
    }
}

// A path that gains a field.
fn grow_path(
    code: &[u16],
    at: usize,
    kind: u16,
    steps: usize,
    name: u16,
    out: &mut [u16],
    to: usize,
) -> Moved
    requires { (at + 1 + steps ≤ length code.now) × ((to + 2 + steps ≤ length out.old) × ((kind < 8) × (steps ≤ 24))) }
    ensures { Gained code.now at kind steps name out.old to out.new result }
{
    let first = at + 1;
    let end = first + steps;
    out[to] = WrappedAccessPaths::AccessPath(kind, steps + 1).word();
    let last = copy_words(&code[first..end], out, to + 1);
    out[last] = name;
    Moved {
        from: end,
        to: last + 1,
    }
}

// A head that stays as it is.
fn keep_head(code: &[u16], at: usize, out: &mut [u16], to: usize) -> Moved
    requires { (at < length code.now) × (to < length out.old) }
    ensures { TurnTook at (get_or code.now at 0 ∷ []) out.old to (get_or code.now at 0 ∷ []) out.new result }
{
    out[to] = code[at];
    Moved {
        from: at + 1,
        to: to + 1,
    }
}

// One head, extended by a field: it stays, a path gains the field, or a record literal gives it. No set is dereferenced.
fn extend(
    code: &[u16],
    at: usize,
    head: WrappedAccessPaths,
    name: u16,
    out: &mut [u16],
    to: usize,
) -> Option<Moved>
    requires { TurnRoom code.now at name out.old to × (head ≡ head_of (get_or code.now at 0)) }
    ensures { Turned code.now at name out.old to out.new result }
{
    let moved = match head {
        WrappedAccessPaths::Empty | WrappedAccessPaths::Union => keep_head(code, at, out, to),
        WrappedAccessPaths::AccessPath(kind, steps) => {
            grow_path(code, at, kind, steps, name, out, to)
        }
        WrappedAccessPaths::SetLiteral => return None,
        WrappedAccessPaths::RecordLiteral(fields) => {
            take_field(code, at, fields, u64::from(name), out, to)
        }
    };
    Some(moved)
}

// `get_or_has_attr`: the wrapped paths at a place, extended by a field, and the places of the paths that gained it. No set is dereferenced.
pub fn get_or_has_attr(
    code: &[u16],
    at: usize,
    name: u16,
    out: &mut [u16],
    places: &mut [u64],
) -> Option<Extended>
    requires { Growing code.now at name out.old × (length places.old ≡ 256) }
    ensures { ExtendedAt code.now at name out.new places.new result }
{
    let mut from = at;
    let mut to = 0;
    let mut grown = 0;
    let mut left: usize = 1;
    while 0 < left {
        let head = WrappedAccessPaths::of(code[from]);
        let moved = extend(code, from, head, name, out, to)?;
        grown = note_path(head, to, places, grown);
        from = moved.from;
        to = moved.to;
        left = left - 1 + head.sides();
    }
    Some(Extended { words: to, grown })
}
