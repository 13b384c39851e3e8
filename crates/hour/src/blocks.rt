ghost use Rattle.std.specs.Prelude.{◌≡◌, IfSome, if◌then◌else◌, Some, None};
ghost use Rattle.prices.specs.Block.{block_list};
ghost use Rattle.hour.specs.Blocks.{fair_block, sound_blocks, SoundBlocks};

use margins::blocks_in_order;
use prices::{Block, BlockList, Kind};

// Most power that all blocks of a list offer together, in MW.
const MOST_TOGETHER: u64 = 1000;

// Whether a block's size is 1 to 1,000 MW and its price at most 99,999 cents.
fn is_fair(block: Block) -> bool
    ensures { result ≡ fair_block block }
{
    1 <= block.size && block.size <= 1000 && block.price <= 99999
}

// The block list that keeps the rules of an offer or a bid by the kind of its asset, or none.
pub fn sound_list(kind: Kind, blocks: &[Block]) -> Option<BlockList>
    ensures value { result ≡ (if sound_blocks kind blocks.now then Some (block_list blocks.now) else None) }
    ensures words { IfSome result (λ list. SoundBlocks kind blocks.now) }
{
    let list = BlockList::new(blocks)?;
    let is_sound = blocks.iter().all(|block| is_fair(*block))
        && list.total_size() <= MOST_TOGETHER
        && blocks_in_order(kind, blocks);
    is_sound.then_some(list)
}
