ghost use Rattle.std.specs.Prelude.{◌≡◌, ◌+◌, ◌≤◌, Some, None};
ghost use Rattle.file.specs.Item.{key_of};

use crate::fault::{Fault, LineFault};
use file::{Key, Read};

// Where a file is read: the place of the next line, its number from 1, and the key of the line before it.
#[derive(Clone, Copy)]
pub struct Cursor {
    pub start: usize,
    pub line: usize,
    pub last: Option<Key>,
}

impl Cursor {
    // The start of a file.
    pub fn first() -> Cursor
        ensures { result ≡ record { start = 0; line = 1; last = None } }
    {
        Cursor {
            start: 0,
            line: 1,
            last: None,
        }
    }

    // A fault of the line that stands here.
    pub fn fault(self, fault: Fault) -> LineFault
        ensures { result ≡ record { line = Some self.line; fault = fault } }
    {
        LineFault {
            line: Some(self.line),
            fault,
        }
    }

    // The cursor behind a line that was read here.
    pub fn behind(self, read: &Read) -> Cursor
        requires { self.line ≤ 32769 }
        ensures { result ≡ record { start = read.now.next; line = self.line + 1; last = Some (key_of read.now.item) } }
    {
        Cursor {
            start: read.next,
            line: self.line + 1,
            last: Some(read.item.key()),
        }
    }
}
