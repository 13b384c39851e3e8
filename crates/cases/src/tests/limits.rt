ghost use Rattle.std.specs.Prelude.{◌≡◌, ◌+◌, true, is_ok};

use crate::run::draw_and_void;
use crate::tests::calls::{Refusal, told};
use crate::tests::scene::accepted;
use hour::{PricedHour, TradingHour};
use splitting::Running;
use std::test::Fail;

// Draws so many runs and voids each of them; the loop repeats a call and indexes nothing.
fn draw_often(hour: &mut PricedHour, times: u32) -> Result<(), Fail>
    ensures { is_ok result ≡ true → hour.new.book.draws ≡ hour.old.book.draws + times }
{
    for _time in 0..times {
        accepted(draw_and_void(hour, &Running, &mut []))?;
    }
    Ok(())
}

#[test]
fn draws_are_used_up(rt: HostRuntime) -> Result<(), Fail> {
    let mut hour = TradingHour::new(7).close();
    draw_often(&mut hour, 999_999)?;
    assert_eq!(rt;
        accepted(draw_and_void(&mut hour, &Running, &mut []))?,
        1_000_000
    );
    assert_eq!(rt;
        told(draw_and_void(&mut hour, &Running, &mut [])),
        Some(Refusal('H', 17, 0))
    );
    Ok(())
}
