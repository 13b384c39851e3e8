ghost use Rattle.std.specs.Prelude.{◌≡◌, true, is_some, Some, None, MatchResult, Err};
ghost use Rattle.hour.specs.Fault.{refusal};
ghost use Rattle.hour.specs.declared.fault.Fault.TheVariants.{RunOut};
ghost use Rattle.hour.specs.Book.{run_number};

use hour::{Fault, PricedHour, TradingHour};
use std::process::Abort;
use std::test::Fail;

// The layer, the row and the subject of a refused call.
#[derive(Clone, Copy, PartialEq, Eq, Debug)]
pub struct Refusal(pub char, pub u32, pub u64);

impl From<Fault> for Refusal {
    ghost from_gives = { λ fault told. told ≡ record { 0 = (refusal fault).layer; 1 = (refusal fault).row; 2 = (refusal fault).subject } };

    fn from(fault: Fault) -> Refusal {
        Refusal(fault.layer(), fault.row(), fault.subject())
    }
}

// Why a call was refused; none for an accepted call.
pub fn told<T: Drop>(answer: Result<T, Fault>) -> Option<Refusal>
    ensures { MatchResult answer (λ _. result ≡ None) (λ fault. result ≡ Some (record { 0 = (refusal fault).layer; 1 = (refusal fault).row; 2 = (refusal fault).subject })) }
{
    answer.err().map(Refusal::from)
}

// A call of an hour that is open for trading or priced.
pub trait Call<H>: Copy {
    // What every call of this kind keeps of the hour.
    ghost keeps: { H → H → Type 0 };

    fn made(self, hour: &mut H) -> Result<(), Fault>
        ensures { keeps hour.old hour.new };

    ghost keeps_itself: { (hour : H) → keeps hour hour };

    ghost keeps_on: { (first second third : H) → keeps first second → keeps second third → keeps first third };
}

// A call of a trading hour; offers are made one by one. A table of values shows its calls, which one of closures would hide.
#[derive(Clone, Copy)]
pub enum Trade {
    Enrol(u32, char, u32),
    Order(u32, u32, u32),
    Shed(u32, u32),
}

impl Call<TradingHour> for Trade {
    ghost use Rattle.std.proofs.Common.{◌∙◌, refl};

    ghost keeps = { λ before after. after.market.label ≡ before.market.label };

    ghost keeps_itself = { λ hour. refl };

    ghost keeps_on = { λ first second third earlier later. later ∙ earlier };

    fn made(self, hour: &mut TradingHour) -> Result<(), Fault> {
        match self {
            Trade::Enrol(asset, letter, owner) => hour.enrol(asset, letter, owner),
            Trade::Order(asset, minute, level) => hour.order(asset, minute, level),
            Trade::Shed(first, end) => hour.shed(first, end),
        }
    }
}

// A call of a priced hour. As Trade, a table of values.
#[derive(Clone, Copy)]
pub enum Entry {
    Meter(u32, u32),
    Propose(u32, u32, u32, u32),
    Confirm(u32, u32),
    Withdraw(u32, u32),
}

impl Call<PricedHour> for Entry {
    ghost use Rattle.std.proofs.Common.{◌∙◌, refl};

    ghost keeps = { λ before after. (after.book.market.label ≡ before.book.market.label) × (after.book.out ≡ before.book.out) };

    ghost keeps_itself = { λ hour. (refl, refl) };

    ghost keeps_on = { λ first second third earlier later. (later.0 ∙ earlier.0, later.1 ∙ earlier.1) };

    fn made(self, hour: &mut PricedHour) -> Result<(), Fault>
        ensures label { hour.new.book.market.label ≡ hour.old.book.market.label }
        ensures out { hour.new.book.out ≡ hour.old.book.out }
        ensures refused { is_some hour.old.book.out ≡ true → result ≡ Err (RunOut (run_number hour.old.book.out)) }
    {
        match self {
            Entry::Meter(asset, kwh) => hour.meter(asset, kwh),
            Entry::Propose(number, source, sink, kwh) => hour.propose(number, source, sink, kwh),
            Entry::Confirm(number, participant) => hour.confirm(number, participant),
            Entry::Withdraw(number, participant) => hour.withdraw(number, participant),
        }
    }
}

// Makes the calls in turn; each has the answer that stands beside it.
pub fn make_all<H, C: Call<H>>(
    rt: &impl Abort,
    hour: &mut H,
    calls: &[(C, Option<Refusal>)],
) -> Result<(), Fail>
    ensures { C.keeps hour.old hour.new }
{
    for (call, answer) in calls {
        assert_eq!(rt; told(call.made(hour)), *answer);
    }
    Ok(())
}
