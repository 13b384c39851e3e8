ghost use Rattle.std.specs.Prelude.{◌≡◌, ◌+◌, true, is_ok, IfOk, None};
ghost use Rattle.cases.specs.Run.{PostedRun, VoidedRun};

use hour::{Fault, Line, PricedHour};
use splitting::Apportion;

// The two ways to end a run differ in what they promise; one function over the ending would carry both contracts as bounds.

// Draws a run by a rule and posts it; answers its number. The one of hourfile is private to it and passes its own fault on.
pub fn draw_and_post<R: Apportion>(
    hour: &mut PricedHour,
    rule: &R,
    lines: &mut [Line],
) -> Result<u32, Fault>
    ensures steps { IfOk result (λ _. PostedRun (R.Apportion.meaning rule.now) hour.old.book lines.old hour.new.book lines.new) }
    ensures run { IfOk result (λ run. run ≡ hour.old.book.draws + 1) }
    ensures done { is_ok result ≡ true → hour.new.book.out ≡ None }
{
    let slip = hour.draw(rule, lines)?;
    let run = slip.run();
    match hour.post(slip) {
        Ok(()) => Ok(run),
        Err(_back) => unreachable(),
    }
}

// Draws a run by a rule and voids it, so that its lines are seen and nothing is posted; answers its number.
pub fn draw_and_void<R: Apportion>(
    hour: &mut PricedHour,
    rule: &R,
    lines: &mut [Line],
) -> Result<u32, Fault>
    ensures steps { IfOk result (λ _. VoidedRun (R.Apportion.meaning rule.now) hour.old.book lines.old hour.new.book lines.new) }
    ensures run { IfOk result (λ run. run ≡ hour.old.book.draws + 1) }
    ensures posted { is_ok result ≡ true → hour.new.book.posted ≡ hour.old.book.posted }
    ensures market { hour.new.book.market ≡ hour.old.book.market }
    ensures draws { is_ok result ≡ true → hour.new.book.draws ≡ hour.old.book.draws + 1 }
{
    let slip = hour.draw(rule, lines)?;
    let run = slip.run();
    match hour.void(slip) {
        Ok(()) => Ok(run),
        Err(_back) => unreachable(),
    }
}
