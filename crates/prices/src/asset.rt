ghost use Rattle.std.specs.Prelude.{◌≡◌};
ghost use Rattle.prices.specs.Asset.{level_in, offered, price_in, generator_price};
ghost use Rattle.prices.specs.Block.{Marginal};

use crate::block::{Block, BlockList, marginal_price};
use crate::kind::Kind;

// An enrolled asset: its kind, its offer or bid, and its level in MW in each minute of the hour.
#[derive(Clone, Copy)]
pub struct Asset {
    pub kind: Kind,
    pub offer: Option<BlockList>,
    pub levels: [u32; 60],
}

impl Asset {
    // The blocks that this asset offers or bids.
    pub fn blocks(&self) -> &[Block]
        ensures { result.now ≡ offered self.now }
    {
        match &self.offer {
            Some(list) => list.as_slice(),
            None => &[],
        }
    }

    // Level in a minute; 0 past the end of the hour.
    pub fn level(&self, minute: u32) -> u32
        ensures { result ≡ level_in self.now minute }
    {
        self.levels.get(minute as usize).copied().unwrap_or(0)
    }

    // Price of the highest priced block with power in a minute; none at level 0.
    pub fn marginal_price(&self, minute: u32) -> Option<u32>
        ensures value { result ≡ price_in self.now minute }
        ensures words { Marginal (offered self.now) (level_in self.now minute) result }
    {
        marginal_price(self.blocks(), self.level(minute))
    }

    // The price that this asset proposes for the system: imports, loads and exports propose none.
    pub fn generator_price(&self, minute: u32) -> Option<u32>
        ensures { result ≡ generator_price self.now minute }
    {
        match self.kind {
            Kind::Generator => self.marginal_price(minute),
            Kind::Import | Kind::Load | Kind::Export => None,
        }
    }
}
