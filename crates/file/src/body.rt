ghost use Rattle.std.specs.Prelude.{MatchResult};
ghost use Rattle.file.specs.Numbers.{NumberRow};

use crate::broken::BrokenForm;
use crate::field::End;
use crate::item::Item;
use crate::key::Key;
use crate::position::Position;
use crate::row::row_end;

// What a line says, and the place behind its line feed.
#[derive(Clone, Copy)]
pub struct Read {
    pub item: Item,
    pub next: usize,
}

impl<'a> Position<'a> {
    ghost use Rattle.file.specs.Body.{ReadsBody};
    ghost use Rattle.file.specs.Numbers.{ReadNumbers};
    ghost use Rattle.file.specs.Place.{BreaksAt};

    // Reads so many numbers up to the line feed, or gives the place that breaks this form.
    fn numbers<const N: usize>(self) -> Result<([u32; N], Position<'a>), BrokenForm>
        ensures { MatchResult result (λ read. ReadNumbers N self.entry.file.now self.entry.at read.0 read.1) (λ broken. BreaksAt (NumberRow N) self.entry.file.now self.entry.at broken.place) }
    {
        let mut values = [0; N];
        let mut next = self;
        for (i, value) in values.iter_mut().enumerate() {
            let field = next.field(row_end(i, N, End::Comma, End::Line))?;
            *value = field.value;
            next = field.next;
        }
        Ok((values, next))
    }

    // Each of these reads what stands behind a key, or gives the first place that breaks the form of the key's lines.

    pub fn hour(self) -> Result<Read, BrokenForm>
        ensures { ReadsBody Key.Hour self.entry.file.now self.entry.at result }
    {
        let ([label], next) = self.numbers::<1>()?;
        Ok(Read {
            item: Item::Hour { label },
            next: next.at,
        })
    }

    pub fn asset(self) -> Result<Read, BrokenForm>
        ensures { ReadsBody Key.Asset self.entry.file.now self.entry.at result }
    {
        let asset = self.field(End::Comma)?;
        let (letter, next) = asset.next.letter()?;
        let owner = next.field(End::Line)?;
        Ok(Read {
            item: Item::Asset {
                asset: asset.value,
                letter,
                owner: owner.value,
            },
            next: owner.next.at,
        })
    }

    pub fn order(self) -> Result<Read, BrokenForm>
        ensures { ReadsBody Key.Order self.entry.file.now self.entry.at result }
    {
        let ([asset, minute, level], next) = self.numbers::<3>()?;
        Ok(Read {
            item: Item::Order {
                asset,
                minute,
                level,
            },
            next: next.at,
        })
    }

    pub fn shed(self) -> Result<Read, BrokenForm>
        ensures { ReadsBody Key.Shed self.entry.file.now self.entry.at result }
    {
        let ([first, end], next) = self.numbers::<2>()?;
        Ok(Read {
            item: Item::Shed { first, end },
            next: next.at,
        })
    }

    pub fn meter(self) -> Result<Read, BrokenForm>
        ensures { ReadsBody Key.Meter self.entry.file.now self.entry.at result }
    {
        let ([asset, kwh], next) = self.numbers::<2>()?;
        Ok(Read {
            item: Item::Meter { asset, kwh },
            next: next.at,
        })
    }

    pub fn instruct(self) -> Result<Read, BrokenForm>
        ensures { ReadsBody Key.Instruct self.entry.file.now self.entry.at result }
    {
        let ([number, source, sink, kwh], next) = self.numbers::<4>()?;
        Ok(Read {
            item: Item::Instruct {
                number,
                source,
                sink,
                kwh,
            },
            next: next.at,
        })
    }
}
