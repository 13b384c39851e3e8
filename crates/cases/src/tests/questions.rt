ghost use Rattle.std.specs.Prelude.{◌≡◌};

use crate::late::LABEL;
use crate::run::draw_and_void;
use crate::tests::calls::{Refusal, Trade, make_all, told};
use crate::tests::scene::{BLANK, accepted, block, closed_hour, read_worked, rows};
use hour::{PricedHour, TradingHour};
use splitting::{Largest, Running};
use std::process::Abort;
use std::test::Fail;

#[test]
fn worked_hour_questions(rt: HostRuntime) -> Result<(), Fail> {
    let hour = closed_hour(&rt, LABEL)?;
    assert_eq!(rt; hour.price(), (6_000, 0));
    assert_eq!(rt; hour.line_count(), 4);
    assert_eq!(rt; accepted(hour.setter(0))?, Some(2));
    assert_eq!(rt; told(hour.setter(60)), Some(Refusal('H', 8, 60)));
    let mut counts = [9; 65];
    assert_eq!(rt;
        told(hour.tally(&mut counts[0..63])),
        Some(Refusal('H', 14, 64))
    );
    assert_eq!(rt; counts, [9; 65]);
    accepted(hour.tally(&mut counts))?;
    assert_eq!(rt;
        (counts[0], counts[1], counts[63], counts[64]),
        (0, 60, 0, 9)
    );
    Ok(())
}

fn trade_shed(rt: &impl Abort, hour: &mut TradingHour) -> Result<(), Fail>
    ensures { hour.new.market.label ≡ hour.old.market.label }
{
    assert_eq!(rt; told(hour.enrol(64, 'G', 32)), None);
    assert_eq!(rt; told(hour.offer(64, &[block(10, 0)])), None);
    make_all(
        rt,
        hour,
        &[(Trade::Order(64, 30, 5), None), (Trade::Shed(50, 60), None)],
    )
}

#[test]
fn shed_minutes_have_the_cap_and_no_setter(rt: HostRuntime) -> Result<(), Fail> {
    let mut trading = TradingHour::new(0);
    trade_shed(&rt, &mut trading)?;
    let hour = trading.close();
    assert_eq!(rt; hour.price(), (16_667, -20));
    assert_eq!(rt; accepted(hour.setter(29))?, None);
    assert_eq!(rt; accepted(hour.setter(30))?, Some(64));
    assert_eq!(rt; accepted(hour.setter(50))?, None);
    let mut counts = [9; 64];
    accepted(hour.tally(&mut counts))?;
    assert_eq!(rt; (counts[0], counts[63]), (0, 20));
    Ok(())
}

#[test]
fn empty_hour_is_drawn(rt: HostRuntime) -> Result<(), Fail> {
    let mut hour = TradingHour::new(7).close();
    assert_eq!(rt; hour.price(), (0, 0));
    assert_eq!(rt; hour.line_count(), 0);
    assert_eq!(rt; accepted(draw_and_void(&mut hour, &Running, &mut []))?, 1);
    Ok(())
}

// A refused draw leaves the list as it was.
fn refused_draws(rt: &impl Abort, hour: &mut PricedHour)
    ensures { hour.new.book.market.label ≡ hour.old.book.market.label }
{
    let mut few = [BLANK; 3];
    assert_eq!(rt;
        told(draw_and_void(hour, &Largest, &mut few)),
        Some(Refusal('H', 14, 4))
    );
    let mut lines = [BLANK; 5];
    assert_eq!(rt;
        told(draw_and_void(hour, &Largest, &mut lines)),
        Some(Refusal('H', 15, 1))
    );
    assert_eq!(rt; told(hour.meter(1, 0)), None);
    assert_eq!(rt;
        told(draw_and_void(hour, &Largest, &mut lines)),
        Some(Refusal('H', 15, 2))
    );
    assert_eq!(rt; rows(&lines), [[77, 7, 7, 7, 7, 7, 7]; 5]);
}

#[test]
fn draws_name_their_refusals(rt: HostRuntime) -> Result<(), Fail> {
    let mut hour = closed_hour(&rt, LABEL)?;
    refused_draws(&rt, &mut hour);
    read_worked(&rt, &mut hour)?;
    assert_eq!(rt; told(hour.meter(3, 0)), None);
    assert_eq!(rt; told(hour.meter(4, 0)), None);
    let mut lines = [BLANK; 5];
    assert_eq!(rt;
        told(draw_and_void(&mut hour, &Running, &mut lines)),
        Some(Refusal('S', 16, 0))
    );
    assert_eq!(rt; rows(&lines), [[77, 7, 7, 7, 7, 7, 7]; 5]);
    Ok(())
}
