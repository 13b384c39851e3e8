ghost use Rattle.std.specs.Prelude.{◌≡◌, ◌+◌, ◌≤◌, length, drop, Decides, MatchOption};

use crate::broken::BrokenForm;

// A place in the bytes of a file.
#[derive(Clone, Copy)]
pub struct Position<'a> {
    pub file: &'a [u8],
    pub at: usize,
    pub ghost within: { at ≤ length file.now },
}

impl<'a> Position<'a> {
    ghost use Rattle.file.specs.Place.{Behind, ByteAt};

    // A form breaks here.
    pub fn broken(self) -> BrokenForm
        ensures { result ≡ record { place = self.entry.at } }
    {
        BrokenForm { place: self.at }
    }

    // The bytes from here on.
    pub fn rest(self) -> &'a [u8]
        ensures { result.now ≡ drop self.entry.at self.entry.file.now }
    {
        &self.file[self.at..]
    }

    // The byte that stands here.
    pub fn byte(self) -> Option<u8>
        ensures { MatchOption result (self.entry.at ≡ length self.entry.file.now) (λ byte. ByteAt self.entry.file.now self.entry.at byte) }
    {
        self.file.get(self.at).copied()
    }

    // Whether this byte stands here.
    pub fn has(self, byte: u8) -> bool
        ensures { Decides result (ByteAt self.entry.file.now self.entry.at byte) }
    {
        self.byte() == Some(byte)
    }

    // The position so many bytes further on.
    pub fn behind(self, count: usize) -> Position<'a>
        requires { self.at + count ≤ length self.file.now }
        ensures { Behind self.entry.file.now (self.entry.at + count) result }
    {
        Position {
            file: self.file,
            at: self.at + count,
        }
    }
}
