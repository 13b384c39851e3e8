ghost use Rattle.std.specs.Prelude.{◌≡◌, ◌≤◌, length};
ghost use Rattle.file.specs.Item.{Sound};
ghost use Rattle.hourfile.specs.Call.{Owners, EntryLine, Traded, Instructed, Entered};

use crate::fault::Fault;
use file::{Item, RuleName};
use hour::{Fault as HourFault, PricedHour, TradingHour};

// Makes the trading call of a line, and passes its answer on; none if the line has no trading call.
pub fn trade(hour: &mut TradingHour, item: &Item) -> Option<Result<(), HourFault>>
    requires { Sound item.now }
    ensures { Traded item.now hour.old.market result hour.new.market }
{
    let answer = match item {
        Item::Asset {
            asset,
            letter,
            owner,
        } => hour.enrol(*asset, *letter, *owner),
        Item::Offer { asset, blocks } => hour.offer(*asset, blocks.as_slice()),
        Item::Order {
            asset,
            minute,
            level,
        } => hour.order(*asset, *minute, *level),
        Item::Shed { first, end } => hour.shed(*first, *end),
        _ => return None,
    };
    Some(answer)
}

// Proposes an instruction and confirms it as the owner of its sink.
fn instruct(
    hour: &mut PricedHour,
    number: u32,
    source: u32,
    sink: u32,
    kwh: u32,
) -> Result<(), Fault>
    requires { Owners hour.old.book.market }
    ensures { Instructed hour.old.book number source sink kwh result hour.new.book }
{
    hour.propose(number, source, sink, kwh)?;
    let owner = hour.owner(sink).unwrap();
    match hour.confirm(number, owner) {
        Ok(()) => Ok(()),
        Err(_) => unreachable(),
    }
}

// Makes the call of a line on the priced hour; answers the rule if the line names it.
pub fn enter(hour: &mut PricedHour, item: &Item) -> Result<Option<RuleName>, Fault>
    requires owners { Owners hour.old.book.market }
    requires entry { EntryLine item.now }
    ensures { Entered item.now hour.old.book result hour.new.book }
{
    match item {
        Item::Meter { asset, kwh } => hour.meter(*asset, *kwh)?,
        Item::Instruct {
            number,
            source,
            sink,
            kwh,
        } => instruct(hour, *number, *source, *sink, *kwh)?,
        Item::Rule { name } => return Ok(Some(*name)),
        _ => unreachable(),
    }
    Ok(None)
}
