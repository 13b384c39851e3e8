ghost use Rattle.std.specs.Prelude.{◌≡◌, ◌<◌, ◌≤◌, length, if◌then◌else◌, ltb, Err, Ok, MatchResult};
ghost use Rattle.file.specs.Line.{ReadLine};
ghost use Rattle.hourfile.specs.Cursor.{BrokenHere};
ghost use Rattle.hourfile.specs.declared.fault.Fault.TheVariants.{TooLarge, IllFormed};

use crate::cursor::Cursor;
use crate::fault::{Fault, LineFault};
use file::{Read, is_oversized, read_line};

// A file of no more bytes than are allowed.
#[derive(Clone, Copy)]
pub struct HourFile<'a> {
    pub bytes: &'a [u8],
    ghost few: { length bytes.now ≤ 32768 },
}

impl<'a> HourFile<'a> {
    // The file of these bytes, unless they are too many.
    pub fn new(bytes: &'a [u8]) -> Result<HourFile<'a>, Fault>
        ensures { MatchResult result (λ file. file.bytes.now ≡ bytes.now) (λ fault. (fault ≡ TooLarge) × (32768 < length bytes.now)) }
    {
        if is_oversized(bytes) {
            return Err(Fault::TooLarge);
        }
        Ok(HourFile { bytes })
    }

    // Reads the line that stands at the cursor.
    pub fn read(self, cursor: Cursor) -> Result<Read, LineFault>
        ensures { MatchResult result (λ read. ReadLine self.entry.bytes.now cursor.start cursor.last read) (λ at. BrokenHere self.entry.bytes.now cursor at) }
    {
        // `?` takes the line out first, since an answer of `map_err` that is handed on whole is copied once more.
        let read = read_line(self.bytes, cursor.start, cursor.last).map_err(|broken| cursor.fault(
            Fault::IllFormed(broken.place),
        ))?;
        Ok(read)
    }

    // Nothing stands at the cursor, which is behind the last line.
    pub fn check_end(self, cursor: Cursor) -> Result<(), LineFault>
        ensures { result ≡ (if ltb cursor.start (length self.entry.bytes.now) then Err (record { line = Some cursor.line; fault = IllFormed 1 }) else Ok tt) }
    {
        if cursor.start < self.bytes.len() {
            return Err(cursor.fault(Fault::IllFormed(1)));
        }
        Ok(())
    }
}
