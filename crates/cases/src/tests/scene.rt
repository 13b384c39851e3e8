ghost use Rattle.std.specs.Prelude.{◌≡◌, map, IfOk, None, Ok};
ghost use Rattle.cases.specs.Told.{row_of};

use crate::late::{CHEAP, DEAR};
use crate::tests::calls::{Entry, Trade, make_all, told};
use hour::{Amounts, Fault, Line, PricedHour, TradingHour};
use prices::Block;
use std::process::Abort;
use std::test::Fail;

// A line that no draw writes.
pub const BLANK: Line = Line {
    participant: 77,
    amounts: Amounts {
        energy: 7,
        uplift: 7,
        adjustment: 7,
        supply_charge: 7,
        load_charge: 7,
        net: 7,
    },
};

pub fn block(size: u32, price: u32) -> Block
    ensures { result ≡ record { size = size; price = price } }
{
    Block { size, price }
}

// The trading calls of the worked hour; the client of late readings makes them by `?`, and stops at the first refusal.
fn trade_worked(rt: &impl Abort, hour: &mut TradingHour) -> Result<(), Fail>
    ensures { hour.new.market.label ≡ hour.old.market.label }
{
    make_all(
        rt,
        hour,
        &[
            (Trade::Enrol(1, 'G', 1), None),
            (Trade::Enrol(2, 'G', 2), None),
            (Trade::Enrol(3, 'L', 3), None),
            (Trade::Enrol(4, 'L', 4), None),
        ],
    )?;
    assert_eq!(rt; told(hour.offer(1, &CHEAP)), None);
    assert_eq!(rt; told(hour.offer(2, &DEAR)), None);
    make_all(
        rt,
        hour,
        &[
            (Trade::Order(1, 0, 100), None),
            (Trade::Order(2, 0, 50), None),
            (Trade::Order(2, 30, 80), None),
        ],
    )
}

// The worked hour, closed, before any reading.
pub fn closed_hour(rt: &impl Abort, label: u32) -> Result<PricedHour, Fail>
    ensures label { IfOk result (λ hour. hour.book.market.label ≡ label) }
    ensures out { IfOk result (λ hour. hour.book.out ≡ None) }
    ensures draws { IfOk result (λ hour. hour.book.draws ≡ 0) }
{
    let mut hour = TradingHour::new(label);
    trade_worked(rt, &mut hour)?;
    Ok(hour.close())
}

// What a call that is not refused answers.
pub fn accepted<T>(answer: Result<T, Fault>) -> Result<T, Fail>
    ensures { IfOk result (λ value. answer ≡ Ok value) }
{
    answer.map_err(|fault| Fail::new(fault.row()))
}

// The readings and the instruction of the worked hour.
pub fn read_worked(rt: &impl Abort, hour: &mut PricedHour) -> Result<(), Fail>
    ensures label { hour.new.book.market.label ≡ hour.old.book.market.label }
    ensures out { hour.new.book.out ≡ hour.old.book.out }
{
    make_all(
        rt,
        hour,
        &[
            (Entry::Meter(1, 100_000), None),
            (Entry::Meter(2, 65_000), None),
            (Entry::Meter(3, 110_000), None),
            (Entry::Meter(4, 50_000), None),
            (Entry::Propose(1, 1, 3, 40_000), None),
            (Entry::Confirm(1, 3), None),
        ],
    )
}

// The worked hour with its readings and its instruction.
pub fn worked_hour(rt: &impl Abort, label: u32) -> Result<PricedHour, Fail>
    ensures label { IfOk result (λ hour. hour.book.market.label ≡ label) }
    ensures out { IfOk result (λ hour. hour.book.out ≡ None) }
{
    let mut hour = closed_hour(rt, label)?;
    read_worked(rt, &mut hour)?;
    Ok(hour)
}

// A line as the statement prints it: participant, energy, uplift, adjustment, supply charge, load charge, net.
// The list shows the order, which a conversion would hide.
fn row(line: Line) -> [i64; 7]
    ensures { result ≡ row_of line }
{
    let amounts = line.amounts;
    [
        i64::from(line.participant),
        amounts.energy,
        amounts.uplift,
        amounts.adjustment,
        amounts.supply_charge,
        amounts.load_charge,
        amounts.net,
    ]
}

// Four lines, and the place behind them.
pub fn rows(lines: &[Line; 5]) -> [[i64; 7]; 5]
    ensures { result ≡ map row_of lines.now }
{
    lines.map(row)
}
