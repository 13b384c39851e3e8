ghost use Rattle.std.specs.Prelude.{◌≡◌, ◌≤◌};
ghost use Rattle.hour.specs.Listing.{listing};
ghost use Rattle.hour.specs.Range.{Ranged};

use crate::book::Book;

// What the amounts of a run are made from: the pool price, the book of the hour, and the participants that get a line.
#[derive(Clone, Copy)]
pub struct Valuation<'a> {
    pub price: u32,
    pub book: &'a Book,
    pub participants: &'a [u32],
    ghost price_limit: { price ≤ 100000 },
    ghost ranged: { Ranged book.now },
    ghost listed: { participants.now ≡ listing book.now.market },
}
