ghost use Rattle.std.specs.Prelude.{◌≡◌};
ghost use Rattle.hour.specs.Fault.{refusal};
ghost use Rattle.hour.specs.declared.fault.Fault.TheVariants.{OutOfRange, Split};

use prices::UnknownLetter;
use splitting::Fault as SplitFault;

// Why a call on an hour is refused; each reason holds its subject.
#[derive(Clone, Copy, Debug, Drop)]
pub enum Fault {
    // A run is out; holds its number.
    RunOut(u32),
    // The slip is not that of the run out; holds the slip's run.
    ForeignSlip(u32),
    // An asset, participant, instruction or letter is outside its range; holds it, or the letter's code.
    OutOfRange(u32),
    // The asset is enrolled already.
    EnrolledAlready(u32),
    // The asset is not enrolled.
    NotEnrolled(u32),
    // The asset has an order, so that its offer stands.
    OfferAfterOrder(u32),
    // The asset's block list breaks its rules.
    UnsoundBlocks(u32),
    // A minute or a span is wrong; holds the minute, or the span's end.
    WrongMinute(u32),
    // The asset has no blocks, or the level is above their sum.
    LevelTooHigh(u32),
    // The energy is outside its range; holds the asset or the instruction.
    EnergyOutOfRange(u32),
    // The instruction does not go from a source to a sink.
    WrongKinds(u32),
    // The instruction is in another stage.
    WrongStage(u32),
    // The participant is not a party to the instruction.
    WrongParty(u32),
    // The caller's list is too short; holds the places needed.
    ListTooShort(u32),
    // The asset has no reading.
    ReadingMissing(u32),
    // The apportioning rule refused a charge.
    Split(SplitFault),
    // All draws of the hour are made.
    DrawsUsedUp,
    // The participant's net is too large.
    NetTooLarge(u32),
}

impl Fault {
    // The letter of the layer in which the fault arose.
    pub fn layer(self) -> char
        ensures { result ≡ (refusal self).layer }
    {
        match self {
            Fault::Split(fault) => fault.layer(),
            _ => 'H',
        }
    }

    // The row of the table of refusals.
    pub fn row(self) -> u32
        ensures { result ≡ (refusal self).row }
    {
        match self {
            Fault::RunOut(_) => 1,
            Fault::ForeignSlip(_) => 2,
            Fault::OutOfRange(_) => 3,
            Fault::EnrolledAlready(_) => 4,
            Fault::NotEnrolled(_) => 5,
            Fault::OfferAfterOrder(_) => 6,
            Fault::UnsoundBlocks(_) => 7,
            Fault::WrongMinute(_) => 8,
            Fault::LevelTooHigh(_) => 9,
            Fault::EnergyOutOfRange(_) => 10,
            Fault::WrongKinds(_) => 11,
            Fault::WrongStage(_) => 12,
            Fault::WrongParty(_) => 13,
            Fault::ListTooShort(_) => 14,
            Fault::ReadingMissing(_) => 15,
            Fault::Split(fault) => fault.row(),
            Fault::DrawsUsedUp => 17,
            Fault::NetTooLarge(_) => 18,
        }
    }

    // What the fault is about.
    pub fn subject(self) -> u64
        ensures { result ≡ (refusal self).subject }
    {
        match self {
            Fault::RunOut(number)
            | Fault::ForeignSlip(number)
            | Fault::OutOfRange(number)
            | Fault::EnrolledAlready(number)
            | Fault::NotEnrolled(number)
            | Fault::OfferAfterOrder(number)
            | Fault::UnsoundBlocks(number)
            | Fault::WrongMinute(number)
            | Fault::LevelTooHigh(number)
            | Fault::EnergyOutOfRange(number)
            | Fault::WrongKinds(number)
            | Fault::WrongStage(number)
            | Fault::WrongParty(number)
            | Fault::ListTooShort(number)
            | Fault::ReadingMissing(number)
            | Fault::NetTooLarge(number) => u64::from(number),
            Fault::Split(fault) => fault.subject(),
            // 0 where the table of refusals names no number.
            Fault::DrawsUsedUp => 0,
        }
    }
}

impl From<SplitFault> for Fault {
    ghost from_gives = { λ inner outer. outer ≡ Split inner };

    fn from(fault: SplitFault) -> Fault {
        Fault::Split(fault)
    }
}

impl From<UnknownLetter> for Fault {
    ghost from_gives = { λ inner outer. outer ≡ OutOfRange inner.0 };

    fn from(unknown: UnknownLetter) -> Fault {
        Fault::OutOfRange(unknown.0 as u32)
    }
}
