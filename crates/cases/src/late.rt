ghost use Rattle.std.specs.Prelude.{IfOk};
ghost use Rattle.cases.specs.Worked.{worked_label, worked_trades, worked_calls};
ghost use Rattle.cases.specs.Client.{CameTo, SettledLate, TradedTo};

use crate::run::{draw_and_post, draw_and_void};
use hour::{Fault, Line, PricedHour, TradingHour};
use ledger::posted_nets;
use prices::Block;
use splitting::Apportion;

// The label of the worked hour.
pub const LABEL: u32 = 2024040107;

// What the first asset of the worked hour offers.
pub const CHEAP: [Block; 1] = [Block {
    size: 100,
    price: 2_000,
}];

// What the second asset of the worked hour offers.
pub const DEAR: [Block; 2] = [
    Block {
        size: 50,
        price: 3_000,
    },
    Block {
        size: 50,
        price: 9_000,
    },
];

// The worked hour after its trading calls.
fn trade_worked_hour() -> Result<TradingHour, Fault>
    ensures { IfOk result (λ hour. TradedTo worked_label worked_trades hour.market) }
{
    let mut trading = TradingHour::new(LABEL);
    trading.enrol(1, 'G', 1)?;
    trading.enrol(2, 'G', 2)?;
    trading.enrol(3, 'L', 3)?;
    trading.enrol(4, 'L', 4)?;
    trading.offer(1, &CHEAP)?;
    trading.offer(2, &DEAR)?;
    trading.order(1, 0, 100)?;
    trading.order(2, 0, 50)?;
    trading.order(2, 30, 80)?;
    Ok(trading)
}

// The worked hour with its readings and its instruction.
fn read_worked_hour() -> Result<PricedHour, Fault>
    ensures { IfOk result (λ hour. CameTo worked_label worked_trades worked_calls hour.book) }
{
    let trading = trade_worked_hour()?;
    let mut hour = trading.close();
    hour.meter(1, 100_000)?;
    hour.meter(2, 65_000)?;
    hour.meter(3, 110_000)?;
    hour.meter(4, 50_000)?;
    hour.propose(1, 1, 3, 40_000)?;
    hour.confirm(1, 3)?;
    Ok(hour)
}

// Settles the worked hour by any rule: posts a run, reads a meter late, draws a run and voids it, draws another and posts it;
// answers all posted nets.
pub fn settle_late_reading<R: Apportion>(rule: &R, lines: &mut [Line]) -> Result<i64, Fault>
    ensures { IfOk result (λ nets. SettledLate nets) }
{
    let mut hour = read_worked_hour()?;
    let _first = draw_and_post(&mut hour, rule, lines)?;
    hour.meter(4, 60_000)?;
    let _second = draw_and_void(&mut hour, rule, lines)?;
    let _third = draw_and_post(&mut hour, rule, lines)?;
    Ok(posted_nets(&hour))
}
