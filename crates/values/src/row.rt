// A row of a value is one word (docs/FORMS.md, 'Words').
ghost use Rattle.std.specs.Prelude.{◌≡◌, ◌<◌, ◌^◌};
ghost use Rattle.rules.specs.ValueRows.{value_row};
ghost use Rattle.rules.specs.ValueRowTests.{is_value_row};
ghost use Rattle.values.specs.ValueWords.{depth_from, key_from, kind_from, number_from, value_row_in, value_word, unkeyed_word};

#[derive(Clone, Copy, PartialEq, Eq, Debug)]
pub struct ValueRow {
    pub word: u64,
}

impl ValueRow {
    // The kinds from which on a rule looks at a value: an entity's id, a set, a record. Those below are a primitive and an extension value.
    pub const ENTITY: u64 = 2;

    pub const SET: u64 = 3;

    pub const RECORD: u64 = 4;

    // How many values a load may have, the context's aside: each attribute, record field and set element, and each parent and ancestor id.
    pub const VALUES: u64 = 8_192;

    pub fn depth(self) -> u64
        ensures { result ≡ depth_from self.word }
    {
        self.word / 0x8_0000_0000
    }

    // A field's name, or an element's place in its set.
    pub fn key(self) -> u64
        ensures { result ≡ key_from self.word }
    {
        self.word / 0x8_0000 % 0x1_0000
    }

    pub fn kind(self) -> u64
        ensures { result ≡ kind_from self.word }
    {
        self.word / 0x1_0000 % 8
    }

    // An entity's id, or the id that stands for a primitive or an extension value.
    pub fn number(self) -> u64
        ensures { result ≡ number_from self.word }
    {
        self.word % 0x1_0000
    }

    // The letter of the kind in a text; `?` for a kind that no value has.
    pub fn letter(self) -> u8 {
        let kind = self.kind();
        match kind {
            0 => b'n',
            1 => b'x',
            2 => b'e',
            3 => b's',
            4 => b'r',
            _ => b'?',
        }
    }

    // The row of its parts.
    pub fn of(depth: u64, key: u64, kind: u64, number: u64) -> ValueRow
        requires { (depth < 2 ^ 28) × (key < 2 ^ 16) × (kind < 8) × (number < 2 ^ 16) }
        ensures { result.word ≡ value_word (value_row depth key kind number) }
    {
        ValueRow {
            word: number + kind * 0x1_0000 + key * 0x8_0000 + depth * 0x8_0000_0000,
        }
    }

    // The row with key 0: elements of a set are compared without their places.
    pub fn unkeyed(self) -> ValueRow
        ensures { result.word ≡ unkeyed_word self.word }
    {
        ValueRow {
            word: self.word % 0x8_0000 + self.word / 0x8_0000_0000 * 0x8_0000_0000,
        }
    }

    // Whether the row by itself is of its form: one of the five kinds, and number 0 for sets and records.
    pub fn is_value_row(self) -> bool
        ensures { result ≡ is_value_row (value_row_in self.word) }
    {
        let kind = self.kind();
        if kind < ValueRow::SET {
            return true;
        }
        if ValueRow::RECORD < kind {
            return false;
        }
        self.number() == 0
    }
}
