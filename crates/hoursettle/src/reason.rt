ghost use Rattle.std.specs.Prelude.{◌≡◌, Some};
ghost use Rattle.hoursettle.specs.Reason.{reason as reason_text, split_reason};

use hour::Fault;
use splitting::Fault as SplitFault;
use std::fmt;

// Why a call on the hour is refused, in words; the subject stands behind them in brackets.
#[derive(Clone, Copy)]
pub struct Reason(pub Fault);

impl Reason {
    // The reason in words.
    pub fn words(self) -> &'static str
        ensures { result.now ≡ reason_text self.0 }
    {
        match self.0 {
            Fault::RunOut(_) => "a run is out",
            Fault::ForeignSlip(_) => "the slip is not that of the run out",
            Fault::OutOfRange(_) => "an asset, participant, instruction or letter is out of range",
            Fault::EnrolledAlready(_) => "the asset is enrolled already",
            Fault::NotEnrolled(_) => "the asset is not enrolled",
            Fault::OfferAfterOrder(_) => "the asset has an order, so its offer stands",
            Fault::UnsoundBlocks(_) => "the blocks of the asset break the rules of an offer",
            Fault::WrongMinute(_) => "the minute or the span of minutes is wrong",
            Fault::LevelTooHigh(_) => "the asset has no blocks, or the level is above their sum",
            Fault::EnergyOutOfRange(_) => "the energy of the asset or instruction is out of range",
            Fault::WrongKinds(_) => "the instruction does not go from a source to a sink",
            Fault::WrongStage(_) => "the instruction is in another stage",
            Fault::WrongParty(_) => "the participant is not a party to the instruction",
            Fault::ListTooShort(_) => "the list is too short for the places needed",
            Fault::ReadingMissing(_) => "the asset has no reading",
            Fault::Split(fault) => SplitReason(fault).words(),
            Fault::DrawsUsedUp => "all draws of the hour are made",
            Fault::NetTooLarge(_) => "the net of the participant is too large",
        }
    }
}

impl fmt::Display for Reason {
    ghost output = { λ refused. Some (reason_text refused.0) };

    fn fmt<W: fmt::Write>(&self, f: &mut fmt::Formatter<W>) -> fmt::Result {
        f.write_str(self.words())
    }
}

// Why a charge cannot be split, in words.
#[derive(Clone, Copy)]
struct SplitReason(SplitFault);

impl SplitReason {
    // The reason in words.
    fn words(self) -> &'static str
        ensures { result.now ≡ split_reason self.0 }
    {
        match self.0 {
            SplitFault::ListTooShort(_) => "the list is too short for the shares needed",
            SplitFault::NothingWeighs => "there is a charge, and no sink has a reading above 0",
            SplitFault::LimitPassed => "a charge or its weights pass a limit",
        }
    }
}
