ghost use Rattle.std.specs.Prelude.{◌≡◌, true, is_some, IfOk, None};

use hour::{Fault, Line, PricedHour, Returned};
use splitting::Apportion;

// Draws a run of an hour, offers its slip to another hour and then voids the run;
// answers the other hour's refusal, none if it took the slip.
pub fn void_elsewhere<R: Apportion>(
    hour: &mut PricedHour,
    other: &mut PricedHour,
    rule: &R,
    lines: &mut [Line],
) -> Result<Option<Fault>, Fault>
    ensures { IfOk result (λ told. is_some told ≡ true → hour.new.book.out ≡ None) }
{
    let slip = hour.draw(rule, lines)?;
    match other.post(slip) {
        Ok(()) => Ok(None),
        Err(Returned { slip, fault }) => match hour.void(slip) {
            Ok(()) => Ok(Some(fault)),
            Err(_back) => unreachable(),
        },
    }
}
