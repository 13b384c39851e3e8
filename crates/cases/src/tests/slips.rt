ghost use Rattle.std.specs.Prelude.{◌≡◌, ◌+◌, true, is_some, is_ok, IfOk, Some, None};
ghost use Rattle.hour.specs.Run.{slip_fits};

use crate::late::LABEL;
use crate::tests::calls::{Call, Entry, Refusal, told};
use crate::tests::scene::{BLANK, accepted, worked_hour};
use crate::tests::settle::void_elsewhere;
use hour::{Fault, Line, PricedHour, Returned, Slip};
use splitting::Largest;
use std::process::Abort;
use std::test::Fail;

// What a call answers while a run is out; the run is then voided.
fn entered_while_out(
    hour: &mut PricedHour,
    call: Entry,
    lines: &mut [Line],
) -> Result<Option<Refusal>, Fault>
    ensures refused { IfOk result (λ told. told ≡ Some (record { 0 = 72; 1 = 1; 2 = hour.old.book.draws + 1 })) }
    ensures done { is_ok result ≡ true → hour.new.book.out ≡ None }
{
    let slip = hour.draw(&Largest, lines)?;
    let answer = call.made(hour);
    match hour.void(slip) {
        Ok(()) => Ok(told(answer)),
        Err(_back) => unreachable(),
    }
}

// What a draw answers while a run is out; the run is then voided.
fn drawn_while_out(hour: &mut PricedHour, lines: &mut [Line]) -> Result<Refusal, Fault>
    ensures { IfOk result (λ told. told ≡ record { 0 = 72; 1 = 1; 2 = hour.old.book.draws + 1 }) }
{
    let slip = hour.draw(&Largest, lines)?;
    match hour.draw(&Largest, &mut lines[0..0]) {
        Ok(_second) => unreachable(),
        Err(fault) => match hour.void(slip) {
            Ok(()) => Ok(fault.into()),
            Err(_back) => unreachable(),
        },
    }
}

// The number of the run out is the subject, whatever else is wrong with the call.
fn refused_while_out(
    rt: &impl Abort,
    hour: &mut PricedHour,
    call: Entry,
    run: u64,
) -> Result<(), Fail>
    ensures { is_ok result ≡ true → hour.new.book.out ≡ None }
{
    let mut lines = [BLANK; 4];
    let answer = accepted(entered_while_out(hour, call, &mut lines))?;
    assert_eq!(rt; answer, Some(Refusal('H', 1, run)));
    Ok(())
}

#[test]
fn run_out_is_refused_first(rt: HostRuntime) -> Result<(), Fail> {
    let mut hour = worked_hour(&rt, LABEL)?;
    refused_while_out(&rt, &mut hour, Entry::Meter(99, 2_000_000), 1)?;
    refused_while_out(&rt, &mut hour, Entry::Propose(70, 0, 65, 0), 2)?;
    refused_while_out(&rt, &mut hour, Entry::Confirm(0, 0), 3)?;
    refused_while_out(&rt, &mut hour, Entry::Withdraw(1, 3), 4)?;
    let mut lines = [BLANK; 4];
    assert_eq!(rt;
        accepted(drawn_while_out(&mut hour, &mut lines))?,
        Refusal('H', 1, 5)
    );
    Ok(())
}

// Voids two runs of two hours.
fn void_both(first: &mut PricedHour, slip: Slip, second: &mut PricedHour, other: Slip)
    requires first { slip_fits first.old.book slip ≡ true }
    requires second { slip_fits second.old.book other ≡ true }
    ensures first { first.new.book.out ≡ None }
    ensures second { second.new.book.out ≡ None }
{
    match (first.void(slip), second.void(other)) {
        (Ok(()), Ok(())) => {}
        _ => unreachable(),
    }
}

// Draws a run of each of two hours and offers the first hour's slip to the second; answers the second's
// refusal, none if it took the slip.
fn exchanged(
    first: &mut PricedHour,
    second: &mut PricedHour,
    lines: &mut [Line],
) -> Result<Option<Refusal>, Fault>
    ensures first { IfOk result (λ told. is_some told ≡ true → first.new.book.out ≡ None) }
    ensures second { IfOk result (λ told. is_some told ≡ true → second.new.book.out ≡ None) }
{
    let slip = first.draw(&Largest, lines)?;
    let other = match second.draw(&Largest, lines) {
        Ok(other) => other,
        Err(fault) => match first.void(slip) {
            Ok(()) => return Err(fault),
            Err(_back) => unreachable(),
        },
    };
    match second.post(slip) {
        Ok(()) => match first.void(other) {
            Ok(()) => Ok(None),
            Err(_back) => unreachable(),
        },
        Err(Returned { slip, fault }) => {
            void_both(first, slip, second, other);
            Ok(Some(fault.into()))
        }
    }
}

// The slip of a run of the first hour, offered to the second while none of its runs is out.
fn spare(
    rt: &impl Abort,
    first: &mut PricedHour,
    second: &mut PricedHour,
    run: u64,
) -> Result<(), Fail>
    ensures { is_ok result ≡ true → first.new.book.out ≡ None }
{
    let mut lines = [BLANK; 4];
    match accepted(void_elsewhere(first, second, &Largest, &mut lines))? {
        Some(fault) => {
            assert_eq!(rt; Refusal::from(fault), Refusal('H', 2, run));
            Ok(())
        },
        None => Err(Fail::new("taken")),
    }
}

#[test]
fn slip_of_another_hour_comes_back(rt: HostRuntime) -> Result<(), Fail> {
    let mut first = worked_hour(&rt, LABEL)?;
    let mut second = worked_hour(&rt, LABEL + 1)?;
    spare(&rt, &mut first, &mut second, 1)?;
    spare(&rt, &mut second, &mut first, 1)?;
    let mut lines = [BLANK; 4];
    let answer = accepted(exchanged(&mut first, &mut second, &mut lines))?;
    assert_eq!(rt; answer, Some(Refusal('H', 2, 2)));
    Ok(())
}

// Hours of one label tell their slips apart by the run alone.
#[test]
fn slip_of_another_run_comes_back(rt: HostRuntime) -> Result<(), Fail> {
    let mut first = worked_hour(&rt, LABEL)?;
    let mut second = worked_hour(&rt, LABEL)?;
    let mut lines = [BLANK; 4];
    assert_eq!(rt;
        accepted(exchanged(&mut first, &mut second, &mut lines))?,
        None
    );
    spare(&rt, &mut first, &mut second, 2)?;
    let answer = accepted(exchanged(&mut first, &mut second, &mut lines))?;
    assert_eq!(rt; answer, Some(Refusal('H', 2, 3)));
    Ok(())
}
