ghost use Rattle.std.specs.Prelude.{◌≡◌, true, is_ok, None};
ghost use Rattle.cases.specs.Told.{figures_of};

use crate::late::LABEL;
use crate::run::{draw_and_post, draw_and_void};
use crate::tests::calls::told;
use crate::tests::scene::{BLANK, accepted, rows, worked_hour};
use hour::{Amounts, PricedHour};
use splitting::{Either, Largest, Running};
use std::process::Abort;
use std::test::Fail;

const WORKED: [[i64; 7]; 5] = [
    [1, 360_000_000, 0, 0, 0, 0, 360_000_000],
    [2, 390_000_000, 45_000, 0, 0, 0, 435_000_000],
    [3, -420_000_000, 0, 0, 30_938, 0, -450_938_000],
    [4, -300_000_000, 0, 0, 14_062, 0, -314_062_000],
    [77, 7, 7, 7, 7, 7, 7],
];

const LATE: [[i64; 7]; 5] = [
    [1, 0, 0, 0, 0, 0, 0],
    [2, 0, 0, 0, 0, 0, 0],
    [3, 0, 0, 0, -1_820, 0, 1_820_000],
    [4, -60_000_000, 0, 0, 1_820, 0, -61_820_000],
    [77, 7, 7, 7, 7, 7, 7],
];

const NOTHING: [[i64; 7]; 5] = [
    [1, 0, 0, 0, 0, 0, 0],
    [2, 0, 0, 0, 0, 0, 0],
    [3, 0, 0, 0, 0, 0, 0],
    [4, 0, 0, 0, 0, 0, 0],
    [77, 7, 7, 7, 7, 7, 7],
];

#[test]
fn worked_hour_by_each_rule(rt: HostRuntime) -> Result<(), Fail> {
    let mut hour = worked_hour(&rt, LABEL)?;
    let mut lines = [BLANK; 5];
    let mut rule: Either<Largest, Running> = Either::First(Largest);
    assert_eq!(rt; accepted(draw_and_void(&mut hour, &rule, &mut lines))?, 1);
    assert_eq!(rt; rows(&lines), WORKED);
    rule = Either::Second(Running);
    assert_eq!(rt; accepted(draw_and_void(&mut hour, &rule, &mut lines))?, 2);
    let mut expected = WORKED;
    expected[2] = [3, -420_000_000, 0, 0, 30_937, 0, -450_937_000];
    expected[3] = [4, -300_000_000, 0, 0, 14_063, 0, -314_063_000];
    assert_eq!(rt; rows(&lines), expected);
    Ok(())
}

// A run that is voided is drawn again with the same lines and the next number.
fn voided(rt: &impl Abort, hour: &mut PricedHour) -> Result<(), Fail>
    ensures { is_ok result ≡ true → hour.new.book.out ≡ None }
{
    let mut lines = [BLANK; 5];
    assert_eq!(rt; accepted(draw_and_void(hour, &Largest, &mut lines))?, 2);
    assert_eq!(rt; rows(&lines), LATE);
    lines = [BLANK; 5];
    assert_eq!(rt; accepted(draw_and_post(hour, &Largest, &mut lines))?, 3);
    assert_eq!(rt; rows(&lines), LATE);
    Ok(())
}

fn late_reading(rt: &impl Abort, hour: &mut PricedHour) -> Result<(), Fail>
    ensures { is_ok result ≡ true → hour.new.book.out ≡ None }
{
    let mut lines = [BLANK; 5];
    assert_eq!(rt; accepted(draw_and_post(hour, &Largest, &mut lines))?, 1);
    assert_eq!(rt; rows(&lines), WORKED);
    assert_eq!(rt; told(hour.meter(4, 60_000)), None);
    voided(rt, hour)?;
    assert_eq!(rt; accepted(draw_and_post(hour, &Largest, &mut lines))?, 4);
    assert_eq!(rt; rows(&lines), NOTHING);
    Ok(())
}

// The list shows the order, which a conversion would hide.
fn figures(amounts: Amounts) -> [i64; 6]
    ensures { result ≡ figures_of amounts }
{
    [
        amounts.energy,
        amounts.uplift,
        amounts.adjustment,
        amounts.supply_charge,
        amounts.load_charge,
        amounts.net,
    ]
}

#[test]
fn late_reading_is_posted_as_differences(rt: HostRuntime) -> Result<(), Fail> {
    let mut hour = worked_hour(&rt, LABEL)?;
    late_reading(&rt, &mut hour)?;
    assert_eq!(rt;
        figures(hour.posted(2)),
        [390_000_000, 45_000, 0, 0, 0, 435_000_000]
    );
    assert_eq!(rt;
        figures(hour.posted(4)),
        [-360_000_000, 0, 0, 15_882, 0, -375_882_000]
    );
    assert_eq!(rt; figures(hour.posted(5)), [0; 6]);
    assert_eq!(rt; figures(hour.posted(33)), [0; 6]);
    Ok(())
}
