ghost use Rattle.std.specs.Prelude.{◌≡◌, ◌*◌, ◌≤◌, min, ◌&&◌, leb, length, IfSome, if◌then◌else◌, Some, None, nat_le};
ghost use Rattle.prices.specs.Block.{price_with_power, marginal, Marginal, ahead, block_list, listed};

// A block of an offer or a bid: a size in MW at a price in cents per MWh.
#[derive(Clone, Copy, PartialEq, Eq, Debug, Default)]
pub struct Block {
    pub size: u32,
    pub price: u32,
}

impl Block {
    // Power that this block gets of what the blocks before it left of a level.
    pub fn power(self, left: u32) -> u32
        ensures { result ≡ min self.size left }
    {
        self.size.min(left)
    }

    // Price of this block if it gets power of what the blocks before it left of a level.
    pub fn dispatched_price(self, left: u32) -> Option<u32>
        ensures { result ≡ price_with_power (min self.size left) self.price }
    {
        (0 < self.power(left)).then_some(self.price)
    }
}

// Price of the highest priced block that the level gives power; none at level 0.
pub fn marginal_price(blocks: &[Block], level: u32) -> Option<u32>
    ensures value { result ≡ marginal blocks.now level }
    ensures words { Marginal blocks.now level result }
{
    let mut left = level;
    let mut top = None;
    for block in blocks {
        top = top.max(block.dispatched_price(left));
        left -= block.power(left);
    }
    top
}

// Between 1 and 7 blocks, in the order in which a level fills them.
// The array and its count stand side by side because the list is Copy, which the kit's ArrayVec is not.
#[derive(Clone, Copy)]
pub struct BlockList {
    blocks: [Block; 7],
    count: usize,
}

impl BlockList {
    // None if there are no blocks or more than 7.
    pub fn new(blocks: &[Block]) -> Option<BlockList>
        ensures value { result ≡ (if leb 1 (length blocks.now) && nat_le (length blocks.now) 7 then Some (block_list blocks.now) else None) }
        ensures words { IfSome result (λ list. listed list ≡ blocks.now) }
    {
        if blocks.is_empty() || blocks.len() > 7 {
            return None;
        }
        let mut held = [Block::default(); 7];
        held[..blocks.len()].copy_from_slice(blocks);
        Some(BlockList {
            blocks: held,
            count: blocks.len(),
        })
    }

    pub fn as_slice(&self) -> &[Block]
        ensures { result.now ≡ listed self.now }
    {
        &self.blocks[0..self.count.min(7)]
    }

    // Power in all blocks together, in MW.
    pub fn total_size(&self) -> u64
        ensures value { result ≡ ahead (listed self.now) (length (listed self.now)) }
        ensures bound { result ≤ 7 * 4294967295 }
    {
        self.as_slice()
            .iter()
            .map(|block| u64::from(block.size))
            .sum()
    }
}
