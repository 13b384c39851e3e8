ghost use Rattle.std.specs.Prelude.{◌≡◌};
ghost use Rattle.hour.specs.Reason.{answer};
ghost use Rattle.hour.specs.Market.{empty_market, outcome, enrol_reasons, enrolled, offer_reasons, offered_blocks, order_reasons, shed_reasons};
ghost use Rattle.hour.specs.Market.{ordered, shed as marked_span};

use crate::blocks::sound_list;
use crate::fault::Fault;
use crate::number::{ASSETS, PARTICIPANTS, place_of};
use crate::record::Record;
use margins::whole_offer;
use prices::{Asset, Block, Kind, Schedule};

// The tables of an hour that trading fills: the label, the schedule, and a record of each asset by number less one.
// Records stand beside the schedule's assets and not in them, since prices reads a schedule and knows no owner and no reading.
#[derive(Drop)]
pub struct Market {
    pub label: u32,
    pub schedule: Schedule,
    pub records: [Record; 64],
}

impl Market {
    // Nothing enrolled and no minute marked.
    pub fn new(label: u32) -> Market
        ensures { result ≡ empty_market label }
    {
        Market {
            label,
            schedule: Schedule {
                assets: [None; 64],
                marked: [false; 60],
            },
            records: [Record::default(); 64],
        }
    }

    // Enrols an asset with no blocks and level 0.
    pub fn enrol(&mut self, asset: u32, letter: char, owner: u32) -> Result<(), Fault>
        ensures answer { result ≡ answer (enrol_reasons self.old asset letter owner) }
        ensures state { self.new ≡ outcome result (enrolled self.old asset letter owner) self.old }
    {
        let place = place_of::<ASSETS>(asset)?;
        let kind = Kind::try_from(letter)?;
        place_of::<PARTICIPANTS>(owner)?;
        if self.schedule.assets[place].is_some() {
            return Err(Fault::EnrolledAlready(asset));
        }
        self.schedule.assets[place] = Some(Asset {
            kind,
            offer: None,
            levels: [0; 60],
        });
        self.records[place] = Record {
            owner,
            ..Record::default()
        };
        Ok(())
    }

    // Gives an asset these blocks in place of its earlier ones.
    pub fn offer(&mut self, asset: u32, blocks: &[Block]) -> Result<(), Fault>
        ensures answer { result ≡ answer (offer_reasons self.old asset blocks.now) }
        ensures state { self.new ≡ outcome result (offered_blocks self.old asset blocks.now) self.old }
    {
        let place = place_of::<ASSETS>(asset)?;
        let Some(entry) = &mut self.schedule.assets[place] else {
            return Err(Fault::NotEnrolled(asset));
        };
        if self.records[place].ordered.is_some() {
            return Err(Fault::OfferAfterOrder(asset));
        }
        let Some(list) = sound_list(entry.kind, blocks) else {
            return Err(Fault::UnsoundBlocks(asset));
        };
        entry.offer = Some(list);
        Ok(())
    }

    // Sets an asset's level from a minute to the end of the hour.
    #[tactic(auto, using(crate::proofs::Minutes::levels_written))]
    pub fn order(&mut self, asset: u32, minute: u32, level: u32) -> Result<(), Fault>
        ensures answer { result ≡ answer (order_reasons self.old asset minute level) }
        ensures state { self.new ≡ outcome result (ordered self.old asset minute level) self.old }
    {
        let place = place_of::<ASSETS>(asset)?;
        let Some(entry) = &mut self.schedule.assets[place] else {
            return Err(Fault::NotEnrolled(asset));
        };
        let record = &mut self.records[place];
        if minute > 59 || record.ordered.is_some_and(|latest| minute < latest) {
            return Err(Fault::WrongMinute(minute));
        }
        if entry.blocks().is_empty() || u64::from(level) > whole_offer(entry) {
            return Err(Fault::LevelTooHigh(asset));
        }
        entry.levels[minute as usize..].fill(level);
        record.ordered = Some(minute);
        Ok(())
    }

    // Marks the minutes from first to end - 1.
    #[tactic(auto, using(crate::proofs::Minutes::marks_written))]
    pub fn shed(&mut self, first: u32, end: u32) -> Result<(), Fault>
        ensures answer { result ≡ answer (shed_reasons first end) }
        ensures state { self.new ≡ outcome result (marked_span self.old first end) self.old }
    {
        if first >= end || end > 60 {
            return Err(Fault::WrongMinute(end));
        }
        self.schedule.marked[first as usize..end as usize].fill(true);
        Ok(())
    }
}
