// What a line of a schema says, as one word (docs/FORMS.md, 'Words').
ghost use Rattle.std.specs.Prelude.{◌≡◌, ◌^◌, ◌<◌};
ghost use Rattle.schema.specs.Items.{item_in, item_for, item_word, is_item};

#[derive(Clone, Copy, PartialEq, Eq, Debug)]
pub struct Item {
    pub tag: u64,
    pub value: u64,
    pub key: u64,
}

// What a word says.
impl From<u64> for Item {
    fn from(word: u64) -> Item
        ensures { item_for result ≡ item_in word }
    {
        Item {
            tag: word % 16,
            value: word / 16 % 0x10_0000_0000,
            key: word / 0x100_0000_0000,
        }
    }
}

impl Item {
    // The kinds of types with more than a number; those up to LAST are types.
    pub const SET: u64 = 6;

    pub const RECORD: u64 = 7;

    pub const ACTION: u64 = 8;

    pub const ENTITY: u64 = 9;

    pub const LAST: u64 = 10;

    // The lines that are no types.
    pub const ENTITY_LINE: u64 = 11;

    pub const ATTRIBUTE_LINE: u64 = 12;

    pub const LITERAL_LINE: u64 = 13;

    // The word that says it.
    pub fn word(self) -> u64
        requires { (self.tag < 16) × (self.value < 2 ^ 36) × (self.key < 2 ^ 24) }
        ensures { result ≡ item_word (item_for self) }
    {
        self.tag + self.value * 16 + self.key * 0x100_0000_0000
    }

    // Whether it is of its form: an id as key, the names of an entity type, and a number only where a line has one.
    pub fn is_item(self) -> bool
        ensures { result ≡ is_item (item_for self) }
    {
        if 65_535 < self.key {
            return false;
        }
        let tag = self.tag;
        match tag {
            6 | 12..=14 => true,
            9 => self.value < 0x1_ffff,
            0..=11 => self.value == 0,
            _ => false,
        }
    }
}
