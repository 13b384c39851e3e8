use crate::*;

// An asset of a kind with an offer, at one level before minute 30 and another from then on.
fn asset(kind: Kind, blocks: &[Block], early: u32, late: u32) -> Option<Asset> {
    let mut levels = [early; 60];
    levels[30..].fill(late);
    Some(Asset {
        kind,
        offer: BlockList::new(blocks),
        levels,
    })
}

fn block(size: u32, price: u32) -> Block {
    Block { size, price }
}

fn worked_hour() -> Schedule {
    let mut assets = [None; 64];
    assets[0] = asset(Kind::Generator, &[block(100, 2000)], 100, 100);
    assets[1] = asset(Kind::Generator, &[block(50, 3000), block(50, 9000)], 50, 80);
    assets[2] = asset(Kind::Import, &[block(50, 20000)], 50, 50);
    Schedule {
        assets,
        marked: [false; 60],
    }
}

#[test]
fn worked_hour_costs_6000(rt: HostRuntime) {
    let hour = worked_hour();
    assert_eq!(rt; hour.system_price(29), 3000);
    assert_eq!(rt; hour.system_price(30), 9000);
    assert_eq!(rt; hour.pool_price(), (6000, 0));
    assert_eq!(rt; hour.setter(0), Some(2));
    assert_eq!(rt; hour.tally()[1], 60);
    assert_eq!(rt; hour.tally()[2], 0);
}

#[test]
fn a_marked_minute_has_the_cap_and_no_setter(rt: HostRuntime) {
    let mut hour = worked_hour();
    hour.marked[30] = true;
    assert_eq!(rt; hour.system_price(30), 100000);
    assert_eq!(rt; hour.setter(30), None);
    assert_eq!(rt; hour.tally()[1], 59);
    assert_eq!(rt; hour.pool_price(), (7517, -20));
}

#[test]
fn without_generators_the_price_is_0(rt: HostRuntime) {
    let mut hour = worked_hour();
    hour.assets[0] = None;
    hour.assets[1] = None;
    assert_eq!(rt; hour.pool_price(), (0, 0));
    assert_eq!(rt; hour.setter(0), None);
    assert_eq!(rt; hour.system_price(60), 0);
}

#[test]
fn averages_round_half_up(rt: HostRuntime) {
    assert_eq!(rt; nearest_sixtieth(60029), (1000, 29));
    assert_eq!(rt; nearest_sixtieth(60030), (1001, -30));
}

#[test]
fn a_level_fills_blocks_in_order(rt: HostRuntime) {
    let blocks = [block(40, 50000), block(20, 5000)];
    assert_eq!(rt; marginal_price(&blocks, 0), None);
    assert_eq!(rt; marginal_price(&blocks, 60), Some(50000));
    assert!(rt; BlockList::new(&[]).is_none());
    assert!(rt; BlockList::new(&[block(1, 1); 8]).is_none());
    assert!(rt; BlockList::new(&[block(1, 1); 7]).is_some());
}

#[test]
fn letters_stand_for_kinds(rt: HostRuntime) {
    assert_eq!(rt; Kind::try_from('L'), Ok(Kind::Load));
    assert_eq!(rt; Kind::try_from('l'), Err(UnknownLetter('l')));
}

#[test]
fn sizes_add_up(rt: HostRuntime) {
    let list = BlockList::new(&[block(4294967295, 1), block(5, 2)]);
    assert_eq!(rt; list.map(|list| list.total_size()), Some(4294967300));
}
