ghost use Rattle.std.specs.Prelude.{◌≡◌, ℕ, ◌+◌, ◌<◌, cond, ◌++◌, length, ℤ, Ok, Err, Result};
ghost use Rattle.prices.specs.Average.{Nearest};
ghost use Rattle.prices.specs.Schedule.{pool_price, price_sum};
ghost use Rattle.prices.specs.Setter.{setter_of, Sets, minutes_set};
ghost use Rattle.hour.specs.declared.fault.Fault.TheVariants.{WrongMinute};
ghost use Rattle.hour.specs.Question.{SetterAnswer, TallyAnswer, enrolled_owner};

use crate::fault::Fault;
use crate::number::{ASSETS, place_of};
use crate::priced::PricedHour;

impl PricedHour {
    // The label of the hour.
    pub fn label(&self) -> u32
        ensures { result ≡ self.now.book.market.label }
    {
        self.book.market.label
    }

    // Pool price of the hour, and the sixtieths left over.
    pub fn price(&self) -> (u32, i32)
        ensures value { result.0 ≡ pool_price self.now.book.market.schedule }
        ensures words { Nearest (price_sum self.now.book.market.schedule) result.0 result.1 }
        ensures only { (price : ℕ) (left : ℤ) → Nearest (price_sum self.now.book.market.schedule) price left → (price ≡ result.0) × (left ≡ result.1) }
    {
        self.book.market.schedule.pool_price()
    }

    // The generator that sets the price of a minute, if there is one.
    pub fn setter(&self, minute: u32) -> Result<Option<u32>, Fault>
        ensures { SetterAnswer self.now.book.market.schedule minute result }
    {
        if minute > 59 {
            return Err(Fault::WrongMinute(minute));
        }
        Ok(self.book.market.schedule.setter(minute))
    }

    // Writes for each asset the minutes for which it is named as the setter.
    pub fn tally(&self, counts: &mut [u32]) -> Result<(), Fault>
        ensures { TallyAnswer self.now.book.market.schedule counts.old result counts.new }
    {
        if counts.len() < 64 {
            return Err(Fault::ListTooShort(64));
        }
        let tally = self.book.market.schedule.tally();
        counts[..64].copy_from_slice(&tally);
        Ok(())
    }

    // The owner of an enrolled asset; none for a number that is no enrolled asset's.
    pub fn owner(&self, asset: u32) -> Option<u32>
        ensures { result ≡ enrolled_owner self.now.book.market asset }
    {
        let place = place_of::<ASSETS>(asset).ok()?;
        let is_enrolled = self.book.market.schedule.assets[place].is_some();
        is_enrolled.then_some(self.book.market.records[place].owner)
    }
}
