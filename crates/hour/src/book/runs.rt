ghost use Rattle.std.specs.Prelude.{◌≡◌, true, false, if◌then◌else◌, MatchResult, OnOk};
ghost use Rattle.hour.specs.Range.{Ranged};
ghost use Rattle.hour.specs.Line.{AllWithin};
ghost use Rattle.hour.specs.Run.{out_amounts, Drawing, Posting, Voiding, slip_fits, settled};
ghost use Rattle.hour.specs.declared.fault.Fault.TheVariants.{ForeignSlip};

use crate::book::Book;
use crate::fault::Fault;
use crate::figure::unread_asset;
use crate::line::Line;
use crate::lines::{Change, beyond_limit};
use crate::listing::list_participants;
use crate::run::Run;
use crate::slip::{Returned, Slip};
use crate::valuation::Valuation;
use splitting::Apportion;

// The most draws that an hour accepts.
const MOST_DRAWS: u32 = 1000000;

impl Book {
    // Draws a run by a rule: writes its lines into the caller's list and hands out its slip.
    pub fn draw<R: Apportion>(&mut self, rule: &R, lines: &mut [Line]) -> Result<Slip, Fault>
        requires ranged { Ranged self.old }
        requires posted { AllWithin self.old.posted }
        ensures drawing { Drawing (R.Apportion.meaning rule.now) self.old lines.old result self.new lines.new }
        ensures within { OnOk result (AllWithin (out_amounts self.new.out)) }
    {
        self.check_none_out()?;
        let participants = list_participants(&self.market);
        let count = participants.len();
        if lines.len() < count {
            return Err(Fault::ListTooShort(count as u32));
        }
        if let Some(asset) = unread_asset(&self.market) {
            return Err(Fault::ReadingMissing(asset));
        }
        let price = self.market.schedule.pool_price().0;
        let valuation = Valuation {
            price,
            book: self,
            participants: participants.as_slice(),
        };
        let amounts = valuation.new_amounts(rule)?;
        if self.draws >= MOST_DRAWS {
            return Err(Fault::DrawsUsedUp);
        }
        let change = Change {
            amounts: &amounts,
            posted: &self.posted,
        };
        let drawn = change.lines(&participants);
        if let Some(participant) = beyond_limit(drawn.as_slice()) {
            return Err(Fault::NetTooLarge(participant));
        }
        lines[..count].copy_from_slice(drawn.as_slice());
        let number = self.draws + 1;
        self.draws = number;
        self.out = Some(Run { number, amounts });
        Ok(Slip::new(self.market.label, number))
    }

    // Takes the run out of the book, or hands back a slip that is not its slip.
    fn take_run(&mut self, slip: Slip) -> Result<Run, Returned>
        ensures answer { MatchResult result (λ run. (slip_fits self.old slip ≡ true) × (self.old.out ≡ Some run)) (λ back. (slip_fits self.old slip ≡ false) × (back ≡ record { slip = slip; fault = ForeignSlip slip.run })) }
        ensures state { self.new ≡ (if slip_fits self.old slip then settled self.old self.old.posted else self.old) }
    {
        match self.out {
            Some(run) if slip.is_of(self.market.label, run.number) => {
                slip.spend(self.market.label, run.number);
                self.out = None;
                Ok(run)
            }
            _ => {
                let fault = Fault::ForeignSlip(slip.run());
                Err(Returned { slip, fault })
            }
        }
    }

    // Makes the amounts of the run out the posted ones.
    pub fn post(&mut self, slip: Slip) -> Result<(), Returned>
        ensures { Posting self.old slip result self.new }
    {
        let run = self.take_run(slip)?;
        let amounts = run.amounts;
        self.posted = amounts;
        Ok(())
    }

    // Drops the run out.
    pub fn void(&mut self, slip: Slip) -> Result<(), Returned>
        ensures { Voiding self.old slip result self.new }
    {
        self.take_run(slip)?;
        Ok(())
    }
}
