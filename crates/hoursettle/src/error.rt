use crate::sentence::Sentence;
use std::io;
use thiserror::Error;

// Why the program ends with status 1.
#[derive(Debug, Drop, Error)]
pub enum Stop {
    #[error(transparent)]
    Io(#[from] io::Error),
    #[error("the only argument known is --help")]
    Usage,
    #[error("the print is longer than expected")]
    TextTooShort,
    #[error("{0}")]
    Fault(Sentence),
}
