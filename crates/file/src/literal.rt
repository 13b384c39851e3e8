ghost use Rattle.std.specs.Prelude.{◌≡◌, ◌==◌, length};
ghost use Rattle.std.specs.List.{take_while, zip};
ghost use Rattle.file.specs.Literal.{Agrees};

use crate::position::Position;

// How many bytes two texts begin with in common.
fn common_length(bytes: &[u8], text: &[u8]) -> usize
    ensures { result ≡ length (take_while (λ pair. pair.0 == pair.1) (zip bytes.now text.now)) }
{
    bytes
        .iter()
        .zip(text)
        .take_while(|(byte, wanted)| byte == wanted)
        .count()
}

impl<'a> Position<'a> {
    // How many bytes here are those of a text, up to the first that differs.
    pub fn agreement(self, text: &[u8]) -> usize
        ensures { Agrees self.entry.file.now self.entry.at text.now result }
    {
        common_length(self.rest(), text)
    }
}
