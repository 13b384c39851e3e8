ghost use Rattle.std.specs.Prelude.{◌≡◌, ◌&&◌, ◌==◌};

use crate::fault::Fault;

// The slip of a run that is out: the hour's label and the run's number. Only a draw makes one, and only an
// accepted post or void ends it.
pub struct Slip {
    label: u32,
    run: u32,
}

// A slip that was refused, with the reason.
pub struct Returned {
    pub slip: Slip,
    pub fault: Fault,
}

impl Slip {
    // The slip of a run.
    pub(crate) fn new(label: u32, run: u32) -> Slip
        ensures { result ≡ record { label = label; run = run } }
    {
        Slip { label, run }
    }

    pub fn label(&self) -> u32
        ensures { result ≡ self.now.label }
    {
        self.label
    }

    pub fn run(&self) -> u32
        ensures { result ≡ self.now.run }
    {
        self.run
    }

    // Whether this is the slip of a run of an hour with this label. Its numbers are compared: a slip made for `==` would
    // have to be ended too, and a pair of both inside would change `slip.run`, which the definitions name.
    pub(crate) fn is_of(&self, label: u32, run: u32) -> bool
        ensures { result ≡ (self.now.label == label && self.now.run == run) }
    {
        let same_hour = self.label == label;
        same_hour && self.run == run
    }

    // Ends the slip of the run out.
    pub(crate) fn spend(self, label: u32, run: u32)
        requires label { self.label ≡ label }
        requires run { self.run ≡ run }
    {
        let Slip { label: _, run: _ } = self;
    }
}
