ghost use Rattle.std.specs.Prelude.{◌≡◌};

use crate::tests::calls::{Entry, Refusal, Trade, make_all, told};
use crate::tests::scene::block;
use hour::{PricedHour, TradingHour};
use std::process::Abort;
use std::test::Fail;

fn enrols(rt: &impl Abort, hour: &mut TradingHour) -> Result<(), Fail>
    ensures { hour.new.market.label ≡ hour.old.market.label }
{
    make_all(
        rt,
        hour,
        &[
            (Trade::Enrol(5, 'G', 1), None),
            (Trade::Enrol(0, 'Q', 40), Some(Refusal('H', 3, 0))),
            (Trade::Enrol(65, 'G', 1), Some(Refusal('H', 3, 65))),
            (Trade::Enrol(5, 'Q', 40), Some(Refusal('H', 3, 81))),
            (Trade::Enrol(5, 'g', 1), Some(Refusal('H', 3, 103))),
            (Trade::Enrol(5, 'G', 0), Some(Refusal('H', 3, 0))),
            (Trade::Enrol(5, 'G', 33), Some(Refusal('H', 3, 33))),
            (Trade::Enrol(5, 'G', 32), Some(Refusal('H', 4, 5))),
            (Trade::Enrol(64, 'X', 32), None),
        ],
    )
}

fn long_offers(rt: &impl Abort, hour: &mut TradingHour)
    ensures { hour.new.market.label ≡ hour.old.market.label }
{
    let fine = [block(1, 0); 8];
    assert_eq!(rt; told(hour.offer(65, &fine)), Some(Refusal('H', 3, 65)));
    assert_eq!(rt; told(hour.offer(7, &fine)), Some(Refusal('H', 5, 7)));
    assert_eq!(rt; told(hour.offer(5, &fine)), Some(Refusal('H', 7, 5)));
    let seven = [
        block(142, 0),
        block(142, 1),
        block(142, 2),
        block(142, 3),
        block(142, 4),
        block(142, 5),
        block(148, 99_999),
    ];
    assert_eq!(rt; told(hour.offer(5, &seven)), None);
    assert_eq!(rt; told(hour.offer(64, &seven)), Some(Refusal('H', 7, 64)));
}

fn short_offers(rt: &impl Abort, hour: &mut TradingHour)
    ensures { hour.new.market.label ≡ hour.old.market.label }
{
    let refused = Some(Refusal('H', 7, 5));
    assert_eq!(rt; told(hour.offer(5, &[])), refused);
    assert_eq!(rt; told(hour.offer(5, &[block(0, 1)])), refused);
    assert_eq!(rt; told(hour.offer(5, &[block(1_001, 1)])), refused);
    assert_eq!(rt; told(hour.offer(5, &[block(1, 100_000)])), refused);
    assert_eq!(rt;
        told(hour.offer(5, &[block(500, 1), block(501, 2)])),
        refused
    );
    assert_eq!(rt; told(hour.offer(5, &[block(1, 2), block(1, 2)])), refused);
    assert_eq!(rt; told(hour.offer(5, &[block(1_000, 99_999)])), None);
}

fn orders(rt: &impl Abort, hour: &mut TradingHour) -> Result<(), Fail>
    ensures { hour.new.market.label ≡ hour.old.market.label }
{
    make_all(
        rt,
        hour,
        &[
            (Trade::Order(0, 75, 2_000), Some(Refusal('H', 3, 0))),
            (Trade::Order(7, 75, 2_000), Some(Refusal('H', 5, 7))),
            (Trade::Order(5, 60, 2_000), Some(Refusal('H', 8, 60))),
            (Trade::Order(64, 0, 0), Some(Refusal('H', 9, 64))),
            (Trade::Order(5, 0, 1_001), Some(Refusal('H', 9, 5))),
            (Trade::Order(5, 30, 1_000), None),
            (Trade::Order(5, 29, 2_000), Some(Refusal('H', 8, 29))),
            (Trade::Order(5, 30, 0), None),
            (Trade::Order(5, 59, 1), None),
        ],
    )?;
    assert_eq!(rt; told(hour.offer(5, &[])), Some(Refusal('H', 6, 5)));
    Ok(())
}

fn sheds(rt: &impl Abort, hour: &mut TradingHour) -> Result<(), Fail>
    ensures { hour.new.market.label ≡ hour.old.market.label }
{
    make_all(
        rt,
        hour,
        &[
            (Trade::Shed(30, 30), Some(Refusal('H', 8, 30))),
            (Trade::Shed(0, 61), Some(Refusal('H', 8, 61))),
            (Trade::Shed(61, 60), Some(Refusal('H', 8, 60))),
            (Trade::Shed(59, 60), None),
        ],
    )
}

#[test]
fn trading_calls_name_their_refusals(rt: HostRuntime) -> Result<(), Fail> {
    let mut hour = TradingHour::new(7);
    enrols(&rt, &mut hour)?;
    long_offers(&rt, &mut hour);
    short_offers(&rt, &mut hour);
    orders(&rt, &mut hour)?;
    sheds(&rt, &mut hour)
}

fn parties(rt: &impl Abort, hour: &mut TradingHour) -> Result<(), Fail>
    ensures { hour.new.market.label ≡ hour.old.market.label }
{
    make_all(
        rt,
        hour,
        &[
            (Trade::Enrol(5, 'I', 1), None),
            (Trade::Enrol(6, 'X', 2), None),
        ],
    )
}

fn meters(rt: &impl Abort, hour: &mut PricedHour) -> Result<(), Fail>
    ensures label { hour.new.book.market.label ≡ hour.old.book.market.label }
    ensures out { hour.new.book.out ≡ hour.old.book.out }
{
    make_all(
        rt,
        hour,
        &[
            (Entry::Meter(65, 2_000_000), Some(Refusal('H', 3, 65))),
            (Entry::Meter(7, 2_000_000), Some(Refusal('H', 5, 7))),
            (Entry::Meter(5, 1_000_001), Some(Refusal('H', 10, 5))),
            (Entry::Meter(5, 1_000_000), None),
        ],
    )
}

fn proposals(rt: &impl Abort, hour: &mut PricedHour) -> Result<(), Fail>
    ensures label { hour.new.book.market.label ≡ hour.old.book.market.label }
    ensures out { hour.new.book.out ≡ hour.old.book.out }
{
    make_all(
        rt,
        hour,
        &[
            (Entry::Propose(70, 0, 65, 0), Some(Refusal('H', 3, 70))),
            (Entry::Propose(64, 0, 65, 0), Some(Refusal('H', 3, 0))),
            (Entry::Propose(64, 7, 65, 0), Some(Refusal('H', 3, 65))),
            (Entry::Propose(64, 7, 8, 0), Some(Refusal('H', 5, 7))),
            (Entry::Propose(64, 6, 8, 0), Some(Refusal('H', 5, 8))),
            (Entry::Propose(64, 6, 5, 0), Some(Refusal('H', 10, 64))),
            (
                Entry::Propose(64, 6, 5, 1_000_001),
                Some(Refusal('H', 10, 64)),
            ),
            (Entry::Propose(64, 6, 6, 1), Some(Refusal('H', 11, 64))),
            (Entry::Propose(64, 5, 5, 1), Some(Refusal('H', 11, 64))),
            (Entry::Propose(64, 5, 6, 1_000_000), None),
            (Entry::Propose(64, 6, 5, 1), Some(Refusal('H', 11, 64))),
            (Entry::Propose(64, 5, 6, 1), Some(Refusal('H', 12, 64))),
        ],
    )
}

fn stages(rt: &impl Abort, hour: &mut PricedHour) -> Result<(), Fail>
    ensures label { hour.new.book.market.label ≡ hour.old.book.market.label }
    ensures out { hour.new.book.out ≡ hour.old.book.out }
{
    make_all(
        rt,
        hour,
        &[
            (Entry::Confirm(65, 40), Some(Refusal('H', 3, 65))),
            (Entry::Confirm(64, 33), Some(Refusal('H', 3, 33))),
            (Entry::Confirm(2, 9), Some(Refusal('H', 12, 2))),
            (Entry::Confirm(64, 1), Some(Refusal('H', 13, 1))),
            (Entry::Confirm(64, 2), None),
            (Entry::Confirm(64, 1), Some(Refusal('H', 12, 64))),
            (Entry::Withdraw(0, 40), Some(Refusal('H', 3, 0))),
            (Entry::Withdraw(64, 33), Some(Refusal('H', 3, 33))),
            (Entry::Withdraw(2, 9), Some(Refusal('H', 12, 2))),
            (Entry::Withdraw(64, 9), Some(Refusal('H', 13, 9))),
            (Entry::Withdraw(64, 1), None),
            (Entry::Withdraw(64, 1), Some(Refusal('H', 12, 64))),
            (Entry::Propose(64, 5, 6, 1), None),
            (Entry::Withdraw(64, 2), None),
        ],
    )
}

#[test]
fn priced_calls_name_their_refusals(rt: HostRuntime) -> Result<(), Fail> {
    let mut trading = TradingHour::new(7);
    parties(&rt, &mut trading)?;
    let mut hour = trading.close();
    meters(&rt, &mut hour)?;
    proposals(&rt, &mut hour)?;
    stages(&rt, &mut hour)
}
