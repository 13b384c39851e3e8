ghost use Rattle.std.specs.Prelude.{Some};
ghost use Rattle.hoursettle.specs.Sentence.{in_line, sentence as sentence_text};

use crate::reason::Reason;
use hourfile::{Fault, LineFault};
use std::fmt;

// The line at fault, in front of what is wrong with it; nothing if the file as a whole is.
#[derive(Clone, Copy)]
struct InLine(Option<usize>);

impl fmt::Display for InLine {
    ghost output = { λ place. Some (in_line place.0) };

    fn fmt<W: fmt::Write>(&self, f: &mut fmt::Formatter<W>) -> fmt::Result {
        match self.0 {
            Some(line) => write!(f, "line {line}: "),
            None => Ok(()),
        }
    }
}

// What is wrong with a file, in words, and in which line unless it is the file as a whole.
#[derive(Clone, Copy, Debug)]
pub struct Sentence(pub LineFault);

impl fmt::Display for Sentence {
    ghost output = { λ s. Some (sentence_text s.0.line s.0.fault) };

    fn fmt<W: fmt::Write>(&self, f: &mut fmt::Formatter<W>) -> fmt::Result {
        let line = InLine(self.0.line);
        match self.0.fault {
            Fault::Hour(fault) => {
                let reason = Reason(fault).words();
                let subject = fault.subject();
                write!(f, "{line}{reason} ({subject})")
            }
            Fault::TooLarge => f.write_str("the file has more than 32768 bytes"),
            Fault::IllFormed(place) => write!(f, "{line}ill formed at byte {place}"),
            Fault::TextTooShort(needed) => write!(f, "the print needs a text of {needed} bytes"),
        }
    }
}
