ghost use Rattle.std.specs.Prelude.{◌≡◌, ℕ, ◌+◌, ◌*◌, ◌<◌, ◌≤◌, length, ℤ, IfSome, Some, None, slice_index, slice_index_or};
ghost use Rattle.prices.specs.Range.{first_place, count};
ghost use Rattle.prices.specs.Average.{Nearest};
ghost use Rattle.prices.specs.Schedule.{marked_in, proposed_by, proposed, top_price, system_price, SystemPrice, price_sum, pool_price};
ghost use Rattle.prices.specs.Setter.{setter_of, Sets, minutes_set, is_number};

use crate::asset::Asset;
use crate::average::nearest_sixtieth;
use std::array;

// System price of a marked minute, in cents per MWh.
const CAP: u32 = 100000;

// The hour's assets by number less one, and the minutes marked because load was shed.
#[derive(Drop)]
pub struct Schedule {
    pub assets: [Option<Asset>; 64],
    pub marked: [bool; 60],
}

impl Schedule {
    // Whether load was shed in a minute; never past the end of the hour.
    pub fn is_marked(&self, minute: u32) -> bool
        ensures { result ≡ marked_in self.now minute }
    {
        self.marked.get(minute as usize).copied().unwrap_or(false)
    }

    // Highest marginal price over the generators, none if none is dispatched.
    fn top_price(&self, minute: u32) -> Option<u32>
        ensures { result ≡ top_price self.now minute }
    {
        self.assets
            .iter()
            .filter_map(|asset| proposed_price(asset, minute))
            .max()
    }

    // System marginal price of a minute.
    pub fn system_price(&self, minute: u32) -> u32
        ensures value { result ≡ system_price self.now minute }
        ensures words { SystemPrice self.now minute result }
    {
        if self.is_marked(minute) {
            return CAP;
        }
        self.top_price(minute).unwrap_or(0)
    }

    // Sum of the 60 system prices.
    fn price_sum(&self) -> u64
        ensures value { result ≡ price_sum self.now }
        ensures bound { result ≤ 60 * 4294967295 }
    {
        (0..60)
            .map(|minute| u64::from(self.system_price(minute)))
            .sum()
    }

    // Pool price of the hour and the sixtieths left over.
    pub fn pool_price(&self) -> (u32, i32)
        ensures value { result.0 ≡ pool_price self.now }
        ensures words { Nearest (price_sum self.now) result.0 result.1 }
        ensures only { (price : ℕ) (left : ℤ) → Nearest (price_sum self.now) price left → (price ≡ result.0) × (left ≡ result.1) }
    {
        let (price, left) = nearest_sixtieth(self.price_sum());
        (price as u32, left)
    }

    // Number of a generator whose marginal price is the system's in a minute.
    pub fn setter(&self, minute: u32) -> Option<u32>
        ensures value { result ≡ setter_of self.now minute }
        ensures words { Sets self.now minute result }
    {
        if self.is_marked(minute) {
            return None;
        }
        self.first_proposing(minute, self.system_price(minute))
            .map(|place| place as u32 + 1)
    }

    // Place of the first asset that proposes a price for the system in a minute.
    fn first_proposing(&self, minute: u32, price: u32) -> Option<usize>
        ensures value { result ≡ first_place (λ place. is_number (proposed self.now minute place) price) 64 }
        ensures within { IfSome result (λ place. place < 64) }
    {
        self.assets
            .iter()
            .position(|asset| proposed_price(asset, minute) == Some(price))
    }

    // The setter of each minute.
    fn setters(&self) -> [Option<u32>; 60]
        ensures { (minute : ℕ) → minute < 60 → slice_index_or result minute None ≡ setter_of self.now minute }
    {
        array::from_fn(|minute| self.setter(minute as u32))
    }

    // For each asset, the minutes for which it is named as the setter.
    pub fn tally(&self) -> [u32; 64]
        ensures { (place : ℕ) → place < 64 → slice_index result place ≡ minutes_set self.now (place + 1) }
    {
        let names = self.setters();
        array::from_fn(|place| mentions(&names, place as u32 + 1))
    }
}

// The price that an asset proposes for the system in a minute, if it is enrolled.
fn proposed_price(asset: &Option<Asset>, minute: u32) -> Option<u32>
    ensures { result ≡ proposed_by asset.now minute }
{
    asset
        .as_ref()
        .and_then(|asset| asset.generator_price(minute))
}

// How often a number stands in a list of names.
fn mentions(names: &[Option<u32>; 60], number: u32) -> u32
    ensures { result ≡ count (λ k. is_number (slice_index_or names.now k None) number) 60 }
{
    names.iter().filter(|name| **name == Some(number)).count() as u32
}
