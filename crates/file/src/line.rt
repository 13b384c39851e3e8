ghost use Rattle.file.specs.Line.{ReadsLine, Exactly};

use crate::body::Read;
use crate::broken::BrokenForm;
use crate::key::Key;
use crate::position::Position;

impl<'a> Position<'a> {
    ghost use Rattle.file.specs.Body.{ReadsBody};

    // Reads what stands behind a key, or gives the first place that breaks the form of the key's lines.
    // A match says plainly which reader is a key's; a table of them would carry the eight contracts as bounds.
    fn body(self, key: Key) -> Result<Read, BrokenForm>
        ensures { ReadsBody key self.entry.file.now self.entry.at result }
    {
        match key {
            Key::Hour => self.hour(),
            Key::Asset => self.asset(),
            Key::Offer => self.offer(),
            Key::Order => self.order(),
            Key::Shed => self.shed(),
            Key::Meter => self.meter(),
            Key::Instruct => self.instruct(),
            Key::Rule => self.rule(),
        }
    }
}

// Finds the key of the line at a place and reads what stands behind it, or gives the place in the line, from 1, that breaks its form.
fn scan_line(file: &[u8], start: usize, last: Option<Key>) -> Result<Read, BrokenForm>
    ensures { ReadsLine file.now start last result }
{
    if start > file.len() {
        return Err(BrokenForm { place: 1 });
    }
    let here = Position { file, at: start };
    let key = here.key(last).ok_or(BrokenForm { place: 1 })?;
    here.behind(key.text().len())
        .body(key)
        .map_err(|broken| BrokenForm {
            place: broken.place - start + 1,
        })
}

// Reads the line at a place, whose key may follow the last one, or gives the place in the line, from 1, that breaks its form.
pub fn read_line(file: &[u8], start: usize, last: Option<Key>) -> Result<Read, BrokenForm>
    ensures reads { ReadsLine file.now start last result }
    ensures exactly { Exactly file.now start last result }
{
    scan_line(file, start, last)
}
