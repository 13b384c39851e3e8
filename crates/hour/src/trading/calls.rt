ghost use Rattle.std.specs.Prelude.{◌≡◌, ℕ, false, is_some};
ghost use Rattle.hour.specs.Market.{empty_market, record_at};
ghost use Rattle.hour.specs.Book.{new_book};
ghost use Rattle.hour.specs.Trading.{Enrolled, Offering, Instructed, Shed};

use crate::fault::Fault;
use crate::market::Market;
use crate::priced::PricedHour;
use crate::trading::TradingHour;
use prices::Block;

impl TradingHour {
    // An hour in which nothing is enrolled and no minute is marked.
    pub fn new(label: u32) -> TradingHour
        ensures { result.market ≡ empty_market label }
    {
        TradingHour {
            market: Market::new(label),
        }
    }

    // Enrols an asset under a kind letter and an owner.
    pub fn enrol(&mut self, asset: u32, letter: char, owner: u32) -> Result<(), Fault>
        ensures { Enrolled self.old.market asset letter owner result self.new.market }
    {
        self.market.enrol(asset, letter, owner)
    }

    // Gives an asset these blocks in place of its earlier ones, until it has an order.
    pub fn offer(&mut self, asset: u32, blocks: &[Block]) -> Result<(), Fault>
        ensures { Offering self.old.market asset blocks.now result self.new.market }
    {
        self.market.offer(asset, blocks)
    }

    // Sets an asset's level from a minute to the end of the hour.
    pub fn order(&mut self, asset: u32, minute: u32, level: u32) -> Result<(), Fault>
        ensures { Instructed self.old.market asset minute level result self.new.market }
    {
        self.market.order(asset, minute, level)
    }

    // Marks the minutes from first to end - 1, in which load is shed.
    pub fn shed(&mut self, first: u32, end: u32) -> Result<(), Fault>
        ensures { Shed self.old.market first end result self.new.market }
    {
        self.market.shed(first, end)
    }

    // Closes trading: the schedule and the owners stand, no asset has a reading, every instruction is free.
    pub fn close(self) -> PricedHour
        ensures state { result.book ≡ new_book self.market }
        ensures unread { (k : ℕ) → is_some (record_at result.book.market k).reading ≡ false }
    {
        PricedHour::open(self)
    }
}
