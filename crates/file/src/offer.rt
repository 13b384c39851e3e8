ghost use Rattle.std.specs.Prelude.{◌≡◌, ◌≤◌, length, MatchResult};
ghost use Rattle.prices.specs.Block.{block_list};
ghost use Rattle.file.specs.Offer.{BlockField, block_end, BlockRow};

use crate::body::Read;
use crate::broken::BrokenForm;
use crate::field::{End, Field};
use crate::item::Item;
use crate::key::Key;
use crate::position::Position;
use arrayvec::ArrayVec;
use prices::{Block, BlockList};

// What may end a block behind so many others: the seventh block is the last.
fn block_end(before: usize) -> End
    ensures { result ≡ block_end before }
{
    if before < 6 {
        End::CommaOrLine
    } else {
        End::Line
    }
}

// Between 1 and 7 blocks as a list.
fn as_list(blocks: &[Block]) -> BlockList
    requires some { 1 ≤ length blocks.now }
    requires few { length blocks.now ≤ 7 }
    ensures { result ≡ block_list blocks.now }
{
    BlockList::new(blocks).unwrap()
}

impl<'a> Position<'a> {
    ghost use Rattle.file.specs.Body.{ReadsBody};
    ghost use Rattle.file.specs.Offer.{ReadBlock, ReadBlocks};
    ghost use Rattle.file.specs.Place.{BreaksAt};

    // Reads a block and the byte that ends it, or gives the place that breaks this form.
    fn block(self, end: End) -> Result<Field<'a, Block>, BrokenForm>
        ensures { MatchResult result (λ read. ReadBlock end self.entry.file.now self.entry.at read) (λ broken. BreaksAt (BlockField end) self.entry.file.now self.entry.at broken.place) }
    {
        let size = self.field(End::Colon)?;
        let price = size.next.field(end)?;
        Ok(Field {
            value: Block {
                size: size.value,
                price: price.value,
            },
            ends_line: price.ends_line,
            next: price.next,
        })
    }

    // Reads 1 to 7 blocks up to the line feed, or gives the place that breaks this form.
    // A `for` over seven turns would need an answer behind it that is never given.
    fn blocks(self) -> Result<(ArrayVec<Block, 7>, Position<'a>), BrokenForm>
        ensures { MatchResult result (λ read. ReadBlocks self.entry.file.now self.entry.at read.0.items read.1) (λ broken. BreaksAt (BlockRow 7) self.entry.file.now self.entry.at broken.place) }
    {
        let mut blocks = ArrayVec::new();
        let mut next = self;
        loop {
            let read = next.block(block_end(blocks.len()))?;
            blocks.push(read.value);
            next = read.next;
            if read.ends_line {
                return Ok((blocks, next));
            }
        }
    }

    // Reads the asset and the blocks of an offer, or gives the place that breaks this form.
    pub fn offer(self) -> Result<Read, BrokenForm>
        ensures { ReadsBody Key.Offer self.entry.file.now self.entry.at result }
    {
        let asset = self.field(End::Comma)?;
        let (blocks, next) = asset.next.blocks()?;
        Ok(Read {
            item: Item::Offer {
                asset: asset.value,
                blocks: as_list(blocks.as_slice()),
            },
            next: next.at,
        })
    }
}
