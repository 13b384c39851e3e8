ghost use Rattle.std.specs.Prelude.{◌≡◌};
ghost use Rattle.hour.specs.Fault.{refusal as refusal_of};
ghost use Rattle.hourbill.specs.Fault.{fault_at};

use std::alloc::AllocError;
use std::io;
use thiserror::Error;

// Why a line cannot be read.
#[derive(Clone, Copy, Debug, Error)]
pub enum Fault {
    #[error("there is no memory left")]
    NoMemory(#[from(alloc)] AllocError),
    #[error("it does not end with a line feed")]
    NoLineEnd,
    #[error("lines begin with hour=, asset=, offer=, order= or shed=, in this order, and the first and no other with hour=")]
    Key,
    #[error("a number has only digits, 1 to 10 of them, no needless zero in front, and is at most 4294967295")]
    Number,
    #[error("an asset line has a number from 1 to 64, a letter G, I, L or X, and an owner from 1 to 32")]
    AssetLine,
    #[error("the asset is enrolled already")]
    EnrolledAlready,
    #[error("the asset is not enrolled")]
    NotEnrolled,
    #[error("an offer line has an asset from 1 to 64 and 1 to 7 blocks, each a size, a colon and a price")]
    OfferLine,
    #[error("sizes are 1 to 1000 and add up to at most 1000; prices are at most 99999 and rise, or fall for a load or an export")]
    UnsoundBlocks,
    #[error("an order line has an asset from 1 to 64, a minute from 0 to 59 and a level")]
    OrderLine,
    #[error("the minute is before that of the asset's previous order")]
    MinuteTooEarly,
    #[error("the asset has no blocks, or the level is above the sum of their sizes")]
    LevelTooHigh,
    #[error("a shed line has a first minute and an end, which is above it and at most 60")]
    ShedLine,
}

impl Fault {
    // Why a line whose call is refused cannot be read; `line` is the fault of a field outside its range.
    pub fn of_call(line: Fault, refusal: hour::Fault) -> Fault
        ensures { result ≡ fault_at line (refusal_of refusal).row }
    {
        match refusal {
            hour::Fault::EnrolledAlready(_) => Fault::EnrolledAlready,
            hour::Fault::NotEnrolled(_) => Fault::NotEnrolled,
            hour::Fault::UnsoundBlocks(_) => Fault::UnsoundBlocks,
            hour::Fault::WrongMinute(_) => Fault::MinuteTooEarly,
            hour::Fault::LevelTooHigh(_) => Fault::LevelTooHigh,
            _ => line,
        }
    }
}

// The first line of a file that cannot be read, counted from 1.
#[derive(Clone, Copy, Debug, Error)]
#[error("line {number} cannot be read: {fault}")]
pub struct BadLine {
    pub number: usize,
    pub fault: Fault,
}

// Why the program stops with status 1.
#[derive(Debug, Drop, Error)]
pub enum Stop {
    #[error(transparent)]
    Io(#[from] io::Error),
    #[error("the file has more than 32768 bytes")]
    TooLong,
    #[error(transparent)]
    Line(#[from] BadLine),
}

// By io's own conversion, whose words are printed.
impl From<AllocError> for Stop {
    fn from(error: AllocError) -> Stop {
        Stop::Io(error.into())
    }
}
