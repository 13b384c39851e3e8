ghost use Rattle.hour.specs.Run.{PricedTables};

use crate::book::Book;

mod calls;
mod questions;
mod runs;

// An hour that is closed for trading: it takes readings and instructions, and its prices are fixed.
#[derive(Drop)]
pub struct PricedHour {
    book: Book,
    ghost kept: { PricedTables book },
}
