ghost use Rattle.std.specs.Prelude.{◌≡◌, Decides, MatchOption};
ghost use Rattle.file.specs.Key.{follows, key_text, NoKey, FoundKey};

use crate::position::Position;

// What the lines of a file begin with, in the order of their lines.
#[derive(Clone, Copy, PartialEq, Eq, PartialOrd, Ord, Debug)]
pub enum Key {
    Hour,
    Asset,
    Offer,
    Order,
    Shed,
    Meter,
    Instruct,
    Rule,
}

// The keys in the order of their lines.
const KEYS: [Key; 8] = [
    Key::Hour,
    Key::Asset,
    Key::Offer,
    Key::Order,
    Key::Shed,
    Key::Meter,
    Key::Instruct,
    Key::Rule,
];

impl Key {
    // The bytes of the key with its equals sign.
    pub fn text(self) -> &'static [u8]
        ensures { result.now ≡ key_text self }
    {
        match self {
            Key::Hour => b"hour=",
            Key::Asset => b"asset=",
            Key::Offer => b"offer=",
            Key::Order => b"order=",
            Key::Shed => b"shed=",
            Key::Meter => b"meter=",
            Key::Instruct => b"instruct=",
            Key::Rule => b"rule=",
        }
    }

    // Whether a line of this key may come after a line of the last key, or first.
    pub fn follows(self, last: Option<Key>) -> bool
        ensures { result ≡ follows last self }
    {
        match last {
            None => self == Key::Hour,
            Some(Key::Rule) => false,
            Some(last) => self != Key::Hour && last <= self,
        }
    }
}

impl<'a> Position<'a> {
    // Whether an allowed key stands here with its equals sign.
    fn has_key(self, key: Key, last: Option<Key>) -> bool
        ensures { Decides result (FoundKey self.entry.file.now self.entry.at last key) }
    {
        let text = key.text();
        key.follows(last) && self.agreement(text) == text.len()
    }

    // The allowed key that stands here with its equals sign.
    pub fn key(self, last: Option<Key>) -> Option<Key>
        ensures { MatchOption result (NoKey self.entry.file.now self.entry.at last) (λ key. FoundKey self.entry.file.now self.entry.at last key) }
    {
        KEYS.iter().copied().find(|key| self.has_key(*key, last))
    }
}
