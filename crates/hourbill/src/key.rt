ghost use Rattle.std.specs.Prelude.{◌≡◌, Bool};
ghost use Rattle.hourbill.specs.Key.{follows};

use crate::error::Fault;
use std::str::FromStr;

// What a line is about, in the order in which lines come.
// It stands apart from the keys of a whole hour file, since a line of any other key is none here.
#[derive(Clone, Copy, PartialEq, PartialOrd)]
pub enum Key {
    Hour,
    Asset,
    Offer,
    Order,
    Shed,
}

impl Key {
    // Whether a line of this key may stand after one of another, or as the first.
    pub fn may_follow(self, previous: Option<Key>) -> bool
        ensures { result ≡ follows previous self }
    {
        match previous {
            None => self == Key::Hour,
            Some(key) => self != Key::Hour && key <= self,
        }
    }
}

impl FromStr for Key {
    ghost use Rattle.std.specs.Prelude.{◌≢◌, MatchResult};
    ghost use Rattle.hourbill.specs.Key.{written};
    ghost use Rattle.hourbill.specs.declared.key.Key.{Key};

    type Err = Fault;

    ghost from_str_gives = { λ name r. MatchResult r (λ key. name ≡ written key) (λ _. (key : Key) → name ≢ written key) };

    fn from_str(name: &str) -> Result<Key, Fault> {
        match name {
            "hour" => Ok(Key::Hour),
            "asset" => Ok(Key::Asset),
            "offer" => Ok(Key::Offer),
            "order" => Ok(Key::Order),
            "shed" => Ok(Key::Shed),
            _ => Err(Fault::Key),
        }
    }
}
