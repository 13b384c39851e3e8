ghost use Rattle.std.specs.Prelude.{◌≡◌, ℕ, ◌+◌, ◌<◌, IfOk, slice_index, string_bytes};
ghost use Rattle.prices.specs.Setter.{minutes_set};
ghost use Rattle.hourbill.specs.Report.{HeadLines, Report, minutes_line};

use hour::PricedHour;
use std::alloc::{AllocError, Global};

// Label, pool price and remainder.
fn head_lines(heap: Global, hour: &PricedHour) -> Result<String, AllocError>
    ensures { IfOk result (λ s. HeadLines hour.now.book.market (string_bytes s)) }
{
    let label = hour.label();
    let (price, remainder) = hour.price();
    format!(in heap; "hour={label}\nprice={price}\nremainder={remainder}\n")
}

// The minutes for which an asset is named as the setter, if there are any.
fn minutes_line(heap: Global, asset: usize, count: u32) -> Result<String, AllocError>
    ensures { IfOk result (λ s. string_bytes s ≡ minutes_line asset count) }
{
    if count == 0 {
        return Ok(String::new(heap));
    }
    format!(in heap; "minutes={asset},{count}\n")
}

// The minutes for which each asset is named as the setter.
fn setters(hour: &PricedHour) -> [u32; 64]
    ensures { (place : ℕ) → place < 64 → slice_index result place ≡ minutes_set hour.now.book.market.schedule (place + 1) }
{
    let mut counts = [0; 64];
    hour.tally(&mut counts).unwrap();
    counts
}

// Label, pool price and remainder, and the minutes of each asset that set a price.
pub fn report(heap: Global, hour: &PricedHour) -> Result<String, AllocError>
    ensures { IfOk result (λ s. Report hour.now.book.market (string_bytes s)) }
{
    let mut text = head_lines(heap, hour)?;
    for (place, count) in setters(hour).iter().enumerate() {
        text.push_str(minutes_line(heap, place + 1, *count)?.as_str())?;
    }
    Ok(text)
}
