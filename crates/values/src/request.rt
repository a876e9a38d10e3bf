// A row asked is one word (docs/FORMS.md, 'Words'): an entity to load, and the node that says what of it is wanted.
ghost use Rattle.std.specs.Prelude.{◌≡◌, ◌<◌, ◌^◌};
ghost use Rattle.values.specs.ValueWords.{row_asked, request_word};

#[derive(Clone, Copy, PartialEq, Eq, Debug)]
pub struct EntityRequest {
    pub id: u64,
    pub node: u64,
}

impl From<u64> for EntityRequest {
    fn from(word: u64) -> EntityRequest
        ensures { (result.id ≡ (row_asked word).id) × (result.node ≡ (row_asked word).node) }
    {
        EntityRequest {
            id: word % 0x1_0000,
            node: word / 0x1_0000,
        }
    }
}

impl EntityRequest {
    pub fn word(self) -> u64
        requires { (self.id < 2 ^ 16) × (self.node < 2 ^ 48) }
        ensures { result ≡ request_word (record { id = self.id; node = self.node }) }
    {
        self.id + self.node * 0x1_0000
    }
}
