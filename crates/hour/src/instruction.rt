ghost use Rattle.std.specs.Prelude.{◌≡◌, ◌≤◌};
ghost use Rattle.hour.specs.Instruction.{next_stage, held_terms, terms_of};
ghost use Rattle.hour.specs.Figure.{matched_by};

// What an instruction moves: kWh from an asset that is a source to one that is a sink, by their numbers.
#[derive(Clone, Copy)]
pub struct Terms {
    pub source: u32,
    pub sink: u32,
    pub kwh: u32,
}

// An instruction and the stage that it is in.
#[derive(Clone, Copy)]
pub enum Instruction {
    Free,
    Proposed(Terms),
    Matched(Terms),
}

// What happens to an instruction.
#[derive(Clone, Copy)]
pub enum Event {
    Propose(Terms),
    Confirm,
    Withdraw,
}

impl Instruction {
    // The stage after an event; none if the event does not fit the stage.
    pub fn next(self, event: Event) -> Option<Instruction>
        ensures { result ≡ next_stage self event }
    {
        match (self, event) {
            (Instruction::Free, Event::Propose(terms)) => Some(Instruction::Proposed(terms)),
            (Instruction::Proposed(terms), Event::Confirm) => Some(Instruction::Matched(terms)),
            (Instruction::Proposed(_), Event::Withdraw) => Some(Instruction::Free),
            (Instruction::Matched(_), Event::Withdraw) => Some(Instruction::Free),
            _ => None,
        }
    }

    // The terms of an instruction; none while it is free.
    pub fn terms(self) -> Option<Terms>
        ensures { result ≡ held_terms self }
    {
        match self {
            Instruction::Free => None,
            Instruction::Proposed(terms) | Instruction::Matched(terms) => Some(terms),
        }
    }

    // kWh that this instruction moves from or to an asset; only a matched one counts.
    pub fn matched_kwh(self, asset: u32) -> u32
        ensures value { result ≡ matched_by self asset }
        ensures bound { result ≤ (terms_of self).kwh }
    {
        match self {
            Instruction::Matched(terms) if terms.source == asset || terms.sink == asset =>
                terms.kwh,
            _ => 0,
        }
    }
}
