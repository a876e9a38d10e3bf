// How many entries and nodes rows are.
ghost use Rattle.std.specs.Prelude.{ℕ, List, ◌∷◌, ◌≡◌, ◌+◌, ◌<◌, ◌^◌};
ghost use Rattle.rows.specs.Sizes.{Counted};

use crate::row::Row;

#[derive(Clone, Copy, PartialEq, Eq, Debug)]
pub struct Size {
    pub entries: u64,
    pub nodes: u64,
}

impl Size {
    pub const NONE: Size = Size {
        entries: 0,
        nodes: 0,
    };

    // With one more row.
    pub fn with(self, row: Row) -> Size
        requires { self.entries + self.nodes + 1 < 2 ^ 64 }
        ensures each { result.entries + result.nodes ≡ self.entries + self.nodes + 1 }
        ensures counted { (words rest : List ℕ) → Counted words (row.word ∷ rest) self.entries self.nodes → Counted words rest result.entries result.nodes }
    {
        if row.depth() == 0 {
            Size {
                entries: self.entries + 1,
                ..self
            }
        } else {
            Size {
                nodes: self.nodes + 1,
                ..self
            }
        }
    }
}
