ghost use Rattle.std.specs.Prelude.{◌≡◌, length};
ghost use Rattle.hour.specs.Listing.{listing};
ghost use Rattle.hour.specs.Line.{Item, amount_of, Within, posted_at};
ghost use Rattle.hour.specs.Run.{Drawing, DrawingInWords, Posting, PostingInWords, Voiding, VoidingInWords};

use crate::fault::Fault;
use crate::line::{Amounts, Line};
use crate::lines::amounts_at;
use crate::listing::list_participants;
use crate::priced::PricedHour;
use crate::slip::{Returned, Slip};
use splitting::Apportion;

impl PricedHour {
    // Draws a run by a rule: writes its lines into the caller's list and hands out its slip.
    pub fn draw<R: Apportion>(&mut self, rule: &R, lines: &mut [Line]) -> Result<Slip, Fault>
        ensures drawing { Drawing (R.Apportion.meaning rule.now) self.old.book lines.old result self.new.book lines.new }
        ensures words { DrawingInWords (R.Apportion.meaning rule.now) self.old.book lines.old result self.new.book }
    {
        self.book.draw(rule, lines)
    }

    // Makes the lines of the run out posted; a slip that is not that run's comes back.
    pub fn post(&mut self, slip: Slip) -> Result<(), Returned>
        ensures posting { Posting self.old.book slip result self.new.book }
        ensures words { PostingInWords self.old.book result self.new.book }
    {
        self.book.post(slip)
    }

    // Drops the lines of the run out; a slip that is not that run's comes back.
    pub fn void(&mut self, slip: Slip) -> Result<(), Returned>
        ensures voiding { Voiding self.old.book slip result self.new.book }
        ensures words { VoidingInWords self.old.book result self.new.book }
    {
        self.book.void(slip)
    }

    // How many lines a draw writes.
    pub fn line_count(&self) -> usize
        ensures { result ≡ length (listing self.now.book.market) }
    {
        list_participants(&self.book.market).len()
    }

    // What is posted for a participant; nothing for a number that is none.
    pub fn posted(&self, participant: u32) -> Amounts
        ensures value { result ≡ posted_at self.now.book.posted participant }
        ensures within { (item : Item) → Within 10000000000000000 (amount_of item result) }
    {
        match participant {
            1..=32 => amounts_at(&self.book.posted, participant),
            _ => Amounts::default(),
        }
    }
}
