// A line of a name table as one word (docs/FORMS.md, 'Words').
ghost use Rattle.std.specs.Prelude.{◌≡◌, ◌<◌};
ghost use Rattle.rules.specs.Names.{named};
ghost use Rattle.words.specs.Keys.{key_in};
ghost use Rattle.name_table.specs.Words.{name_word, from_in, size_in};

use words::key_of;

// What a line says: its key, a kind and an id as one number, and where in the text its name begins and how long it is.
#[derive(Clone, Copy, PartialEq, Eq, Debug)]
pub struct Named {
    pub key: u64,
    pub from: usize,
    pub size: usize,
}

impl Named {
    pub fn of(word: u64) -> Named
        ensures key { result.key ≡ key_in word }
        ensures from { result.from ≡ from_in word }
        ensures size { result.size ≡ size_in word }
    {
        Named {
            key: key_of(word),
            from: (word % 0x1_0000) as usize,
            size: (word / 0x1_0000 % 0x100_0000) as usize,
        }
    }

    pub fn word(self) -> u64
        requires { (self.key < 196608) × (self.from < 65536) × (self.size < 65537) }
        ensures { result ≡ name_word (named self.key self.from self.size) }
    {
        self.from as u64 + self.size as u64 * 0x1_0000 + self.key * 0x100_0000_0000
    }
}
