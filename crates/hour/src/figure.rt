ghost use Rattle.std.specs.Prelude.{◌≡◌, ℕ, ◌*◌, ◌<◌, ◌≤◌, if◌then◌else◌, slice_index_or};
ghost use Rattle.hour.specs.declared.instruction.Instruction.TheVariants.{Free};
ghost use Rattle.hour.specs.Instruction.{terms_of};
ghost use Rattle.hour.specs.Figure.{matched_kwh, asset_figure, figure_at, owned, figure_of, listed};
ghost use Rattle.hour.specs.Run.{unread, first_unread};
ghost use Rattle.hour.specs.Range.{largest_figure};

use crate::instruction::Instruction;
use crate::market::Market;
use crate::number::ASSETS;
use crate::valuation::Valuation;
use margins::margin_payment;
use prices::Asset;

// What is added up over the assets of a participant: kWh that the pool buys and sells, margin payments of
// sources and of sinks in cents, and kWh that sinks are read at.
#[derive(Clone, Copy)]
pub enum Figure {
    Bought,
    Sold,
    Uplift,
    Adjustment,
    Consumption,
}

// Matched kWh of an asset.
fn matched_kwh(instructions: &[Instruction; 64], asset: u32) -> u64
    requires { (k : ℕ) → (terms_of (slice_index_or instructions.now k Free)).kwh ≤ 1000000 }
    ensures { result ≡ matched_kwh instructions.now asset }
{
    instructions
        .iter()
        .map(|instruction| u64::from(instruction.matched_kwh(asset)))
        .sum()
}

// A figure of an enrolled asset.
fn asset_figure(figure: Figure, price: u32, asset: &Asset, reading: u32, matched: u64) -> u64
    ensures { result ≡ asset_figure figure price asset.now reading matched }
{
    match (figure, asset.kind.is_source()) {
        (Figure::Bought, true) | (Figure::Sold, false) => u64::from(reading),
        (Figure::Bought, false) | (Figure::Sold, true) => matched,
        (Figure::Uplift, true) | (Figure::Adjustment, false) => {
            margin_payment(asset, reading, price)
        }
        (Figure::Consumption, false) => u64::from(reading),
        _ => 0,
    }
}

// Whether the asset at a place is enrolled and has this owner. Four functions here ask for a place below 64: it joins
// an asset, its record and its number, and a type for it would be made anew at each of the 64.
fn is_owned(market: &Market, participant: u32, place: usize) -> bool
    requires { place < 64 }
    ensures { result ≡ owned market.now participant place }
{
    let asset = &market.schedule.assets[place];
    asset.is_some() && market.records[place].owner == participant
}

impl Valuation<'_> {
    // A figure of the asset at a place.
    fn figure_at(&self, figure: Figure, place: usize) -> u64
        requires { place < 64 }
        ensures { result ≡ figure_at figure self.now.price self.now.book.now place }
    {
        match &self.book.market.schedule.assets[place] {
            Some(asset) => asset_figure(
                figure,
                self.price,
                asset,
                self.book.market.records[place].reading.unwrap_or(0),
                matched_kwh(&self.book.instructions, place as u32 + 1),
            ),
            None => 0,
        }
    }

    // A figure of the asset at a place if the participant owns it, else 0.
    fn owned_figure(&self, figure: Figure, participant: u32, place: usize) -> u64
        requires { place < 64 }
        ensures { result ≡ (if owned self.now.book.now.market participant place then figure_at figure self.now.price self.now.book.now place else 0) }
    {
        if is_owned(&self.book.market, participant, place) {
            self.figure_at(figure, place)
        } else {
            0
        }
    }

    // A figure of a participant: the sum over its assets.
    pub fn figure_of(&self, figure: Figure, participant: u32) -> u64
        ensures value { result ≡ figure_of figure self.now.price self.now.book.now participant }
        ensures bound { result ≤ 64 * largest_figure }
    {
        (0..64)
            .map(|place| self.owned_figure(figure, participant, place))
            .sum()
    }
}

// Whether a participant has an enrolled asset.
pub fn is_listed(market: &Market, participant: u32) -> bool
    ensures { result ≡ listed market.now participant }
{
    (0..64).any(|place| is_owned(market, participant, place))
}

// Whether the asset at a place is enrolled and has no reading.
fn is_unread(market: &Market, place: usize) -> bool
    requires { place < 64 }
    ensures { result ≡ unread market.now place }
{
    let asset = &market.schedule.assets[place];
    let reading = market.records[place].reading;
    asset.is_some() && reading.is_none()
}

// The lowest asset that is enrolled and has no reading.
pub fn unread_asset(market: &Market) -> Option<u32>
    ensures { result ≡ first_unread market.now }
{
    (1..=ASSETS).find(|asset| is_unread(market, *asset as usize - 1))
}
