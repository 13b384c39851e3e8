ghost use Rattle.std.specs.Prelude.{◌≡◌, ◌≤◌, [], ◌∷◌, ◌++◌, length, if◌then◌else◌, nat_lt};
ghost use Rattle.file.specs.Statement.{Prints};
ghost use Rattle.hourfile.specs.Print.{lines_of};

use crate::print::Print;
use file::{PrintLine, TextTooShort, print_lines};

// What stands behind the lines of a print; each variant of a line holds figures, so none is a default.
const NO_LINE: PrintLine = PrintLine::Hour { label: 0 };

impl Print {
    // A print without lines; a struct with ghost fields derives no default.
    pub fn new() -> Print
        ensures { lines_of result ≡ [] }
    {
        Print {
            held: [NO_LINE; 35],
            count: 0,
        }
    }

    // Adds a line, unless there are 35 already.
    pub fn add(&mut self, line: PrintLine)
        ensures { lines_of self.new ≡ (if nat_lt (length (lines_of self.old)) 35 then lines_of self.old ++ line ∷ [] else lines_of self.old) }
    {
        if self.count < 35 {
            self.held[self.count] = line;
            self.count += 1;
        }
    }

    // Writes the lines to the front of the text and gives how many bytes they take; refused with that number if the text is too short.
    pub fn write(&self, text: &mut [u8]) -> Result<usize, TextTooShort>
        ensures { Prints (lines_of self.now) text.old text.new result }
    {
        print_lines(&self.held[0..self.count], text)
    }
}
