ghost use Rattle.std.specs.Prelude.{◌≡◌, MatchOption, MatchResult};
ghost use Rattle.file.specs.Field.{allowed};

use crate::broken::BrokenForm;
use crate::position::Position;

// The bytes that may end a field.
#[derive(Clone, Copy)]
pub enum End {
    Colon,
    Comma,
    Line,
    CommaOrLine,
}

impl End {
    fn allows(self, byte: u8) -> bool
        ensures { result ≡ allowed self byte }
    {
        match self {
            End::Colon => byte == b':',
            End::Comma => byte == b',',
            End::Line => byte == b'\n',
            End::CommaOrLine => byte == b',' || byte == b'\n',
        }
    }
}

// A value of a line, whether a line feed ends it, and the position behind the byte that ends it.
#[derive(Clone, Copy)]
pub struct Field<'a, T> {
    pub value: T,
    pub ends_line: bool,
    pub next: Position<'a>,
}

impl<'a> Position<'a> {
    ghost use Rattle.file.specs.Field.{NoEnd, EndAt, NumberField, ReadNumber, LetterField, ReadLetter};
    ghost use Rattle.file.specs.Place.{BreaksAt};

    // The byte that stands here, if it may end a field.
    fn end_byte(self, end: End) -> Option<u8>
        ensures { MatchOption result (NoEnd end self.entry.file.now self.entry.at) (λ byte. EndAt end self.entry.file.now self.entry.at byte) }
    {
        self.byte().filter(|byte| end.allows(*byte))
    }

    // Reads a number and the byte that ends it, or gives the place that breaks this form.
    pub fn field(self, end: End) -> Result<Field<'a, u32>, BrokenForm>
        ensures { MatchResult result (λ field. ReadNumber end self.entry.file.now self.entry.at field) (λ broken. BreaksAt (NumberField end) self.entry.file.now self.entry.at broken.place) }
    {
        let number = self.number().ok_or(self.broken())?;
        let next = number.next;
        let byte = next.end_byte(end).ok_or(next.broken())?;
        Ok(Field {
            value: number.value,
            ends_line: byte == b'\n',
            next: next.behind(1),
        })
    }

    // Reads a letter from A to Z and the comma that ends it, or gives the place that breaks this form.
    pub fn letter(self) -> Result<(char, Position<'a>), BrokenForm>
        ensures { MatchResult result (λ read. ReadLetter self.entry.file.now self.entry.at read.0 read.1) (λ broken. BreaksAt LetterField self.entry.file.now self.entry.at broken.place) }
    {
        if let Some(letter) = self.byte()
            && letter.is_ascii_uppercase()
        {
            let comma = self.behind(1);
            if comma.has(b',') {
                return Ok((char::from(letter), comma.behind(1)));
            }
            return Err(comma.broken());
        }
        Err(self.broken())
    }
}
