ghost use Rattle.std.specs.Prelude.{◌≡◌, ◌≤◌, ◌++◌, Some, IfOk, IfErr, OnOk, OnErr};
ghost use Rattle.hourbill.specs.declared.key.Key.{Key};
ghost use Rattle.hourbill.specs.Line.{LabelLine, AssetLine, OfferLine, OrderLine, ShedLine, ReadLine, Reads, line_text};

use crate::error::{BadLine, Fault};
use crate::field;
use crate::key::Key;
use hour::TradingHour;
use std::alloc::Global;

// The hour so far, and the key of the latest line; with no line read yet, the label is of no account; an Option would need a branch that cannot come.
#[derive(Drop)]
struct Reader {
    hour: TradingHour,
    previous: Option<Key>,
}

// The key and the fields of a line with the line feed that ends it.
fn parts(line: &str) -> Result<(Key, &str), Fault>
    ensures { IfOk result (λ parts. line.now ≡ line_text parts.0 parts.1.now) }
{
    let content = line.strip_suffix('\n').ok_or(Fault::NoLineEnd)?;
    let (name, fields) = field::halves(content, '=').ok_or(Fault::Key)?;
    Ok((name.parse()?, fields))
}

impl Reader {
    // Reads one line with the line feed that ends it.
    fn read_line(&mut self, heap: Global, line: &str) -> Result<(), Fault>
        ensures { OnOk result (ReadLine line.now self.old.previous self.old.hour.market self.new.previous self.new.hour.market) }
    {
        let (key, fields) = parts(line)?;
        if !key.may_follow(self.previous) {
            return Err(Fault::Key);
        }
        self.previous = Some(key);
        // A match says plainly which reader is a key's; a table of them would carry the five contracts as bounds.
        match key {
            Key::Hour => read_label(heap, &mut self.hour, fields),
            Key::Asset => read_asset(heap, &mut self.hour, fields),
            Key::Offer => read_offer(heap, &mut self.hour, fields),
            Key::Order => read_order(heap, &mut self.hour, fields),
            Key::Shed => read_shed(heap, &mut self.hour, fields),
        }
    }
}

// The five readers take the same three parameters; a struct of them would shorten only these lists, and each method would still state both clauses.
fn read_label(heap: Global, hour: &mut TradingHour, fields: &str) -> Result<(), Fault>
    ensures read { OnOk result (LabelLine fields.now hour.new.market) }
    ensures refused { OnErr result (hour.new.market ≡ hour.old.market) }
{
    *hour = TradingHour::new(field::number(heap, fields)?);
    Ok(())
}

fn read_asset(heap: Global, hour: &mut TradingHour, fields: &str) -> Result<(), Fault>
    ensures read { OnOk result (AssetLine fields.now hour.old.market hour.new.market) }
    ensures refused { OnErr result (hour.new.market ≡ hour.old.market) }
{
    let (asset, rest) = field::halves(fields, ',').ok_or(Fault::AssetLine)?;
    let (letter, owner) = field::halves(rest, ',').ok_or(Fault::AssetLine)?;
    let asset = field::number(heap, asset)?;
    let letter = field::letter(letter).ok_or(Fault::AssetLine)?;
    let owner = field::number(heap, owner)?;
    hour.enrol(asset, letter, owner)
        .map_err(|refusal| Fault::of_call(Fault::AssetLine, refusal))
}

fn read_offer(heap: Global, hour: &mut TradingHour, fields: &str) -> Result<(), Fault>
    ensures read { OnOk result (OfferLine fields.now hour.old.market hour.new.market) }
    ensures refused { OnErr result (hour.new.market ≡ hour.old.market) }
{
    let (asset, list) = field::halves(fields, ',').ok_or(Fault::OfferLine)?;
    let asset = field::number(heap, asset)?;
    let blocks = field::blocks(heap, list)?;
    if blocks.is_empty() || blocks.len() > 7 {
        return Err(Fault::OfferLine);
    }
    hour.offer(asset, &blocks)
        .map_err(|refusal| Fault::of_call(Fault::OfferLine, refusal))
}

fn read_order(heap: Global, hour: &mut TradingHour, fields: &str) -> Result<(), Fault>
    ensures read { OnOk result (OrderLine fields.now hour.old.market hour.new.market) }
    ensures refused { OnErr result (hour.new.market ≡ hour.old.market) }
{
    let (asset, rest) = field::halves(fields, ',').ok_or(Fault::OrderLine)?;
    let (minute, level) = field::halves(rest, ',').ok_or(Fault::OrderLine)?;
    let asset = field::number(heap, asset)?;
    let minute = field::number(heap, minute)?;
    let level = field::number(heap, level)?;
    if minute > 59 {
        return Err(Fault::OrderLine);
    }
    hour.order(asset, minute, level)
        .map_err(|refusal| Fault::of_call(Fault::OrderLine, refusal))
}

fn read_shed(heap: Global, hour: &mut TradingHour, fields: &str) -> Result<(), Fault>
    ensures read { OnOk result (ShedLine fields.now hour.old.market hour.new.market) }
    ensures refused { OnErr result (hour.new.market ≡ hour.old.market) }
{
    let (first, end) = field::halves(fields, ',').ok_or(Fault::ShedLine)?;
    let first = field::number(heap, first)?;
    let end = field::number(heap, end)?;
    hour.shed(first, end).map_err(|_refusal| Fault::ShedLine)
}

// Reads the lines of an hour, or names the first that cannot be read.
pub fn read_hour(heap: Global, text: &str) -> Result<TradingHour, BadLine>
    ensures read { IfOk result (λ hour. (last : Key) × Reads text.now (Some last) hour.market) }
    ensures numbered { IfErr result (λ bad. 1 ≤ bad.number) }
{
    let mut reader = Reader {
        hour: TradingHour::new(0),
        previous: None,
    };
    for (place, line) in text.split_inclusive('\n').enumerate() {
        if let Err(fault) = reader.read_line(heap, line) {
            return Err(BadLine {
                number: place + 1,
                fault,
            });
        }
    }
    if reader.previous.is_none() {
        return Err(BadLine {
            number: 1,
            fault: Fault::Key,
        });
    }
    Ok(reader.hour)
}
