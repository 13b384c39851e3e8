ghost use Rattle.std.specs.Prelude.{◌≡◌, None};
ghost use Rattle.hourfile.specs.Fault.{refusal};
ghost use Rattle.hourfile.specs.declared.fault.Fault.TheVariants.{Hour, TextTooShort};

use file::TextTooShort;
use hour::Fault as HourFault;

// Why a file is not settled, or a print not written; each reason holds its subject.
#[derive(Clone, Copy, Debug, Drop)]
pub enum Fault {
    // A call on the hour was refused.
    Hour(HourFault),
    // The file has more bytes than are allowed.
    TooLarge,
    // The line is ill formed; holds the byte place in it, from 1.
    IllFormed(usize),
    // The caller's text is too short; holds the places needed.
    TextTooShort(usize),
}

// A fault of a file, and the number of the line at fault from 1; none if the file as a whole is.
#[derive(Clone, Copy, Debug, Drop)]
pub struct LineFault {
    pub line: Option<usize>,
    pub fault: Fault,
}

impl Fault {
    // The letter of the layer in which the fault arose.
    pub fn layer(self) -> char
        ensures { result ≡ (refusal self).layer }
    {
        match self {
            Fault::Hour(fault) => fault.layer(),
            Fault::TooLarge | Fault::IllFormed(_) | Fault::TextTooShort(_) => 'F',
        }
    }

    // The row of the table of refusals.
    pub fn row(self) -> u32
        ensures { result ≡ (refusal self).row }
    {
        match self {
            Fault::Hour(fault) => fault.row(),
            Fault::TooLarge | Fault::IllFormed(_) => 19,
            Fault::TextTooShort(_) => 14,
        }
    }

    // What the fault is about.
    pub fn subject(self) -> u64
        ensures { result ≡ (refusal self).subject }
    {
        match self {
            Fault::Hour(fault) => fault.subject(),
            // 0 where the table of refusals names no number.
            Fault::TooLarge => 0,
            Fault::IllFormed(place) => place as u64,
            Fault::TextTooShort(needed) => needed as u64,
        }
    }
}

impl From<HourFault> for Fault {
    ghost from_gives = { λ inner outer. outer ≡ Hour inner };

    fn from(fault: HourFault) -> Fault {
        Fault::Hour(fault)
    }
}

impl From<TextTooShort> for Fault {
    ghost from_gives = { λ inner outer. outer ≡ TextTooShort inner.needed };

    fn from(text: TextTooShort) -> Fault {
        Fault::TextTooShort(text.needed)
    }
}

// A fault of the file as a whole.
impl From<Fault> for LineFault {
    ghost from_gives = { λ fault at. at ≡ (record { line = None; fault = fault }) };

    fn from(fault: Fault) -> LineFault {
        LineFault { line: None, fault }
    }
}
