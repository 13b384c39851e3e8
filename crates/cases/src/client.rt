ghost use Rattle.std.specs.Prelude.{IfOk};
ghost use Rattle.cases.specs.Client.{Settled, SettledLast};

use crate::run::draw_and_post;
use hour::{Fault, Line, TradingHour};
use ledger::posted_nets;
use splitting::Apportion;

// Settles an hour with one generator by any rule: enrols it, closes, reads it, draws, posts, and asks for all posted nets.
pub fn settle_one_asset<R: Apportion>(
    label: u32,
    kwh: u32,
    rule: &R,
    lines: &mut [Line],
) -> Result<i64, Fault>
    ensures settled { IfOk result (λ nets. Settled label nets) }
    ensures last { IfOk result (λ nets. SettledLast label nets) }
{
    let mut trading = TradingHour::new(label);
    trading.enrol(1, 'G', 1)?;
    let mut hour = trading.close();
    hour.meter(1, kwh)?;
    let _run = draw_and_post(&mut hour, rule, lines)?;
    Ok(posted_nets(&hour))
}
