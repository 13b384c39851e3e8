ghost use Rattle.std.specs.Prelude.{◌≡◌, ◌≤◌, ◌+◌, ◌++◌, length};
ghost use Rattle.file.specs.Figure.{figure_text};
ghost use Rattle.file.specs.declared.figure.Figure.TheVariants.{Natural, Signed};

use arrayvec::ArrayVec;
use itoa::Buffer;

// A field of a printed line.
#[derive(Clone, Copy)]
pub enum Figure {
    Natural(u64),
    Signed(i64),
    Letter(u8),
}

// The most bytes of a line: a key of at most 6 bytes, and at most 7 figures of at most 20 bytes with the byte behind each.
pub const LONGEST_LINE: usize = 153;

// A line as it is printed.
pub type LineText = ArrayVec<u8, LONGEST_LINE>;

// Puts these bytes behind a line's text.
fn extend(text: &mut LineText, bytes: &[u8])
    requires { length text.old.items + length bytes.now ≤ 153 }
    ensures { text.new.items ≡ text.old.items ++ bytes.now }
{
    text.try_extend_from_slice(bytes).unwrap();
}

impl Figure {
    // Puts how this figure is printed, in at most 20 bytes, behind a line's text.
    pub fn print(self, text: &mut LineText)
        requires { length text.old.items + 20 ≤ 153 }
        ensures added { text.new.items ≡ text.old.items ++ figure_text self }
        ensures short { length (figure_text self) ≤ 20 }
    {
        match self {
            Figure::Natural(value) => extend(text, Buffer::new().format(value).as_bytes()),
            Figure::Signed(value) => extend(text, Buffer::new().format(value).as_bytes()),
            Figure::Letter(letter) => extend(text, &[letter]),
        }
    }
}

impl From<u32> for Figure {
    ghost from_gives = { λ value figure. figure ≡ Natural value };

    fn from(value: u32) -> Figure {
        Figure::Natural(u64::from(value))
    }
}

impl From<u64> for Figure {
    ghost from_gives = { λ value figure. figure ≡ Natural value };

    fn from(value: u64) -> Figure {
        Figure::Natural(value)
    }
}

impl From<i64> for Figure {
    ghost from_gives = { λ value figure. figure ≡ Signed value };

    fn from(value: i64) -> Figure {
        Figure::Signed(value)
    }
}
