// A row is one word (docs/FORMS.md, 'Words'). Taking it apart and putting it together.
ghost use Rattle.std.specs.Prelude.{◌≡◌, false, ◌<◌, ◌≤◌, ◌^◌};
ghost use Rattle.rules.specs.Tries.{kind_of, id_of, is_step, is_root, principal_of, action_of, resource_of};
ghost use Rattle.rules.specs.Listing.{read};
ghost use Rattle.rows.specs.Words.{word_of, depth_in, mark_in, step_in, rank_in, joined_word, typed_word, is_word};

// Whether a number is a step: a field or a literal with its id, or another root with id 0.
fn is_step(step: u64) -> bool
    ensures { result ≡ is_step step }
{
    let kind = step / 0x1_0000;
    if 5 < kind {
        return false;
    }
    if kind == 0 {
        return true;
    }
    if kind == 5 {
        return true;
    }
    step % 0x1_0000 == 0
}

// Whether a number is a step that a position may begin with.
fn is_root(step: u64) -> bool
    ensures { result ≡ is_root step }
{
    if step < 0x1_0000 {
        return false;
    }
    is_step(step)
}

// The parts of a request type's number.
#[derive(Clone, Copy, PartialEq, Eq, Debug)]
pub struct RequestType {
    pub principal: u64,
    pub action: u64,
    pub resource: u64,
}

impl From<u64> for RequestType {
    fn from(request: u64) -> RequestType
        ensures { (result.principal ≡ principal_of request) × (result.action ≡ action_of request) × (result.resource ≡ resource_of request) }
    {
        RequestType {
            principal: request / 0x1_0000 / 0x1_0000,
            action: request / 0x1_0000 % 0x1_0000,
            resource: request % 0x1_0000,
        }
    }
}

// The parts of a step's number: its place in f p a r c e, and its id.
#[derive(Clone, Copy, PartialEq, Eq, Debug)]
pub struct StepParts {
    pub kind: u64,
    pub id: u64,
}

impl From<u64> for StepParts {
    fn from(step: u64) -> StepParts
        ensures { (result.kind ≡ kind_of step) × (result.id ≡ id_of step) }
    {
        StepParts {
            kind: step / 0x1_0000,
            id: step % 0x1_0000,
        }
    }
}

#[derive(Clone, Copy, PartialEq, Eq, Debug)]
pub struct Row {
    pub word: u64,
}

impl Row {
    // The least key of an entry, and past every key of a row.
    pub const ENTRIES: u64 = 0x1f_0000_0000_0000;

    pub const END: u64 = 0x20_0000_0000_0000;

    // The largest number of a type: 0 for none, t + 1 for type t, and two more for the types of the entry's principal and resource.
    pub const TYPES: u64 = 1_026;

    // The row of an entry.
    pub fn entry(request: u64) -> Row
        requires { request < 2 ^ 48 }
        ensures { result.word ≡ word_of (read 0 request false) }
    {
        Row { word: request * 64 }
    }

    // The row of a node without a type.
    pub fn node(depth: u64, step: u64, marked: bool) -> Row
        requires { (depth < 32) × (step < 2 ^ 19) }
        ensures { result.word ≡ word_of (read depth step marked) }
    {
        if marked {
            Row {
                word: depth + 32 + step * 64,
            }
        } else {
            Row {
                word: depth + step * 64,
            }
        }
    }

    pub fn depth(self) -> u64
        ensures { result ≡ depth_in self.word }
    {
        self.word % 32
    }

    pub fn is_marked(self) -> bool
        ensures { result ≡ mark_in self.word }
    {
        self.word / 32 % 2 == 1
    }

    pub fn step(self) -> u64
        ensures { result ≡ step_in self.word }
    {
        if self.word % 32 == 0 {
            self.word / 64
        } else {
            self.word / 64 % 0x8_0000
        }
    }

    // The smaller key comes first in the listing's order.
    pub fn key(self) -> u64
        ensures { result ≡ rank_in self.word }
    {
        (31 - self.word % 32) * 0x1_0000_0000_0000 + self.step()
    }

    // The row of two that stand for one node: the left one, marked if either is.
    pub fn joined(self, right: Row) -> Row
        ensures { result.word ≡ joined_word self.word right.word }
    {
        if self.is_marked() {
            return self;
        }
        if right.is_marked() {
            return Row {
                word: self.word + 32,
            };
        }
        self
    }

    // The row of a node with a type, by its number.
    pub fn with_type(self, number: u64) -> Row
        requires { (self.word < 2 ^ 36) × (number ≤ 1026) }
        ensures { result.word ≡ typed_word number self.word }
    {
        Row {
            word: self.word % 0x200_0000 + number * 0x200_0000,
        }
    }

    // Whether the word packs a row of its form and nothing else.
    pub fn is_word(self) -> bool
        ensures { result ≡ is_word self.word }
    {
        let word = self.word;
        let step = self.step();
        if word % 32 == 0 {
            if step < 0x1_0000_0000_0000 {
                return !self.is_marked();
            }
            return false;
        }
        if Row::TYPES < word / 0x200_0000 {
            return false;
        }
        if word % 32 == 1 {
            return is_root(step);
        }
        is_step(step)
    }
}
