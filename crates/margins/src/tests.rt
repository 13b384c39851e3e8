use crate::payment::{BlockEnergy, margin_payment};
use crate::side::blocks_in_order;
use prices::{Asset, Block, BlockList, Kind};

const POOL: u32 = 6000;

const OFFER: [Block; 2] = [
    Block {
        size: 50,
        price: 3000,
    },
    Block {
        size: 50,
        price: 9000,
    },
];

const BID: [Block; 2] = [
    Block {
        size: 40,
        price: 50000,
    },
    Block {
        size: 20,
        price: 5000,
    },
];

// An asset that runs at one level to the half hour and at another from then on.
fn running(kind: Kind, blocks: &[Block], level: u32, later: u32) -> Asset {
    let mut levels = [level; 60];
    levels[30..].fill(later);
    Asset {
        kind,
        offer: BlockList::new(blocks),
        levels,
    }
}

#[test]
fn half_a_cent_is_rounded_up(rt: HostRuntime) {
    let energy = BlockEnergy {
        metered: 60,
        before: 0,
        through: 60,
    };
    assert_eq!(rt; energy.payment(499), 0);
    assert_eq!(rt; energy.payment(500), 1);
}

#[test]
fn source_is_paid_for_what_was_dispatched(rt: HostRuntime) {
    let generator = running(Kind::Generator, &OFFER, 50, 80);
    assert_eq!(rt; margin_payment(&generator, 65000, POOL), 45000);
    assert_eq!(rt; margin_payment(&generator, 70000, POOL), 45000);
}

#[test]
fn sink_is_paid_if_it_reduced(rt: HostRuntime) {
    let reduced = running(Kind::Load, &BID, 60, 50);
    assert_eq!(rt; margin_payment(&reduced, 52000, POOL), 12000);
    let unreduced = running(Kind::Load, &BID, 60, 60);
    assert_eq!(rt; margin_payment(&unreduced, 52000, POOL), 0);
}

#[test]
fn sources_rise_and_sinks_fall(rt: HostRuntime) {
    assert!(rt; blocks_in_order(Kind::Import, &OFFER));
    assert!(rt; !blocks_in_order(Kind::Import, &BID));
    assert!(rt; blocks_in_order(Kind::Export, &BID));
    assert!(rt; !blocks_in_order(Kind::Export, &[OFFER[0], OFFER[0]]));
}
