ghost use Rattle.std.specs.Prelude.{◌≡◌, ◌-◌, ◌<◌, ◌≤◌, IfOk, not, is_some, if◌then◌else◌, Ok, Err, ◌==◌};
ghost use Rattle.hour.specs.declared.fault.Fault.TheVariants.{RunOut};
ghost use Rattle.hour.specs.Reason.{answer, first_fitting, outside};
ghost use Rattle.hour.specs.Market.{outcome, record_at};
ghost use Rattle.hour.specs.Book.{new_book, run_number, meter_reasons, metered, propose_reasons, proposed, step_reasons, step_of, confirm_reasons, confirmed, withdraw_reasons, withdrawn, owner_of};

use crate::fault::Fault;
use crate::instruction::{Event, Instruction, Terms};
use crate::line::Amounts;
use crate::market::Market;
use crate::number::{ASSETS, INSTRUCTIONS, PARTICIPANTS, place_of};
use crate::run::Run;

mod runs;

// Largest reading and largest energy of an instruction, in kWh.
const MOST_ENERGY: u32 = 1000000;

// Whether an instruction can move so many kWh.
fn is_movable(kwh: u32) -> bool
    ensures { result ≡ not (outside 1 1000000 kwh) }
{
    1 <= kwh && kwh <= MOST_ENERGY
}

// A stage that an instruction takes: its place, its terms and the stage.
struct Step {
    place: usize,
    terms: Terms,
    next: Instruction,
}

// The tables of a priced hour: what trading left, the instructions by number less one, the posted amounts
// of each participant by number less one, the draws made, and the run that is out.
#[derive(Drop)]
pub struct Book {
    pub market: Market,
    pub instructions: [Instruction; 64],
    pub posted: [Amounts; 32],
    pub draws: u32,
    pub out: Option<Run>,
}

impl Book {
    // A book in which every instruction is free and nothing is drawn or posted.
    pub fn new(market: Market) -> Book
        ensures { result ≡ new_book market }
    {
        Book {
            market,
            instructions: [Instruction::Free; 64],
            posted: [Amounts::default(); 32],
            draws: 0,
            out: None,
        }
    }

    // No run is out.
    fn check_none_out(&self) -> Result<(), Fault>
        ensures { result ≡ (if is_some self.now.out then Err (RunOut (run_number self.now.out)) else Ok tt) }
    {
        match &self.out {
            Some(run) => Err(Fault::RunOut(run.number)),
            None => Ok(()),
        }
    }

    // Whether a participant owns an asset; nobody owns one past the end of the table.
    fn is_owner(&self, participant: u32, asset: u32) -> bool
        requires { 1 ≤ participant }
        ensures { result ≡ (participant == owner_of self.now.market asset) }
    {
        let record = self.market.records.get(asset.saturating_sub(1) as usize);
        record.is_some_and(|record| record.owner == participant)
    }

    // Sets an asset's reading in place of its earlier one.
    pub fn meter(&mut self, asset: u32, kwh: u32) -> Result<(), Fault>
        ensures answer { result ≡ answer (meter_reasons self.old asset kwh) }
        ensures state { self.new ≡ outcome result (metered self.old asset kwh) self.old }
    {
        self.check_none_out()?;
        let place = place_of::<ASSETS>(asset)?;
        if self.market.schedule.assets[place].is_none() {
            return Err(Fault::NotEnrolled(asset));
        }
        if kwh > MOST_ENERGY {
            return Err(Fault::EnergyOutOfRange(asset));
        }
        let record = &mut self.market.records[place];
        record.reading = Some(kwh);
        Ok(())
    }

    // Proposes an instruction from a source to a sink.
    pub fn propose(&mut self, number: u32, source: u32, sink: u32, kwh: u32) -> Result<(), Fault>
        ensures answer { result ≡ answer (propose_reasons self.old number source sink kwh) }
        ensures state { self.new ≡ outcome result (proposed self.old number source sink kwh) self.old }
    {
        self.check_none_out()?;
        let place = place_of::<INSTRUCTIONS>(number)?;
        let from = place_of::<ASSETS>(source)?;
        let to = place_of::<ASSETS>(sink)?;
        let Some(supplier) = self.market.schedule.assets[from] else {
            return Err(Fault::NotEnrolled(source));
        };
        let Some(consumer) = self.market.schedule.assets[to] else {
            return Err(Fault::NotEnrolled(sink));
        };
        if !is_movable(kwh) {
            return Err(Fault::EnergyOutOfRange(number));
        }
        if !supplier.kind.is_source() || !consumer.kind.is_sink() {
            return Err(Fault::WrongKinds(number));
        }
        let terms = Terms { source, sink, kwh };
        let Some(next) = self.instructions[place].next(Event::Propose(terms)) else {
            return Err(Fault::WrongStage(number));
        };
        self.instructions[place] = next;
        Ok(())
    }

    // What to confirm and to withdraw an instruction share: all but who is a party to it.
    fn step(&self, number: u32, participant: u32, event: Event) -> Result<Step, Fault>
        ensures value { result ≡ first_fitting (step_reasons self.now number participant event) (Ok (step_of self.now number event)) }
        ensures within { IfOk result (λ step. step.place < 64) }
    {
        self.check_none_out()?;
        let place = place_of::<INSTRUCTIONS>(number)?;
        place_of::<PARTICIPANTS>(participant)?;
        let current = self.instructions[place];
        let (Some(terms), Some(next)) = (current.terms(), current.next(event)) else {
            return Err(Fault::WrongStage(number));
        };
        Ok(Step { place, terms, next })
    }

    // Matches a proposed instruction, for the owner of its sink.
    pub fn confirm(&mut self, number: u32, participant: u32) -> Result<(), Fault>
        ensures answer { result ≡ answer (confirm_reasons self.old number participant) }
        ensures state { self.new ≡ outcome result (confirmed self.old number) self.old }
    {
        let Step { place, terms, next } = self.step(number, participant, Event::Confirm)?;
        if !self.is_owner(participant, terms.sink) {
            return Err(Fault::WrongParty(participant));
        }
        self.instructions[place] = next;
        Ok(())
    }

    // Frees a proposed or matched instruction, for the owner of its source or of its sink.
    pub fn withdraw(&mut self, number: u32, participant: u32) -> Result<(), Fault>
        ensures answer { result ≡ answer (withdraw_reasons self.old number participant) }
        ensures state { self.new ≡ outcome result (withdrawn self.old number) self.old }
    {
        let Step { place, terms, next } = self.step(number, participant, Event::Withdraw)?;
        if !self.is_owner(participant, terms.source) && !self.is_owner(participant, terms.sink) {
            return Err(Fault::WrongParty(participant));
        }
        self.instructions[place] = next;
        Ok(())
    }
}
