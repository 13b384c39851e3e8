ghost use Rattle.hourfile.specs.Outcome.{shares_by};
ghost use Rattle.hourfile.specs.Run.{FirstRun};

use crate::fault::Fault;
use file::RuleName;
use hour::{Line, PricedHour};
use splitting::{Apportion, Largest, Running};

// Draws a run by a rule into the caller's list and posts it.
fn draw_and_post<R: Apportion>(
    hour: &mut PricedHour,
    rule: &R,
    lines: &mut [Line],
) -> Result<(), Fault>
    ensures { FirstRun (R.Apportion.meaning rule.now) hour.old.book lines.old result hour.new.book lines.new }
{
    let slip = hour.draw(rule, lines)?;
    match hour.post(slip) {
        Ok(()) => Ok(()),
        Err(_back) => unreachable(),
    }
}

// Draws a run by the rule of this name into the caller's list and posts it; each rule is a type of its own, so a name picks the type.
pub fn settle_run(hour: &mut PricedHour, rule: RuleName, lines: &mut [Line]) -> Result<(), Fault>
    ensures { FirstRun (shares_by rule) hour.old.book lines.old result hour.new.book lines.new }
{
    match rule {
        RuleName::Largest => draw_and_post(hour, &Largest, lines),
        RuleName::Running => draw_and_post(hour, &Running, lines),
    }
}
