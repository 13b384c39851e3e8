ghost use Rattle.std.specs.Prelude.{◌≡◌};
ghost use Rattle.hour.specs.Book.{new_book};
ghost use Rattle.hour.specs.Priced.{Metering, Proposal, Confirmation, Withdrawal};

use crate::book::Book;
use crate::fault::Fault;
use crate::priced::PricedHour;
use crate::trading::TradingHour;

impl PricedHour {
    // A priced hour with the tables that trading left.
    pub(crate) fn open(trading: TradingHour) -> PricedHour
        ensures { result.book ≡ new_book trading.market }
    {
        let TradingHour { market } = trading;
        PricedHour {
            book: Book::new(market),
        }
    }

    // Sets an asset's reading in place of its earlier one.
    pub fn meter(&mut self, asset: u32, kwh: u32) -> Result<(), Fault>
        ensures { Metering self.old.book asset kwh result self.new.book }
    {
        self.book.meter(asset, kwh)
    }

    // Proposes an instruction from a source to a sink.
    pub fn propose(&mut self, number: u32, source: u32, sink: u32, kwh: u32) -> Result<(), Fault>
        ensures { Proposal self.old.book number source sink kwh result self.new.book }
    {
        self.book.propose(number, source, sink, kwh)
    }

    // Matches a proposed instruction, for the owner of its sink.
    pub fn confirm(&mut self, number: u32, participant: u32) -> Result<(), Fault>
        ensures { Confirmation self.old.book number participant result self.new.book }
    {
        self.book.confirm(number, participant)
    }

    // Frees a proposed or matched instruction, for the owner of its source or of its sink.
    pub fn withdraw(&mut self, number: u32, participant: u32) -> Result<(), Fault>
        ensures { Withdrawal self.old.book number participant result self.new.book }
    {
        self.book.withdraw(number, participant)
    }
}
