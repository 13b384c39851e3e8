ghost use Rattle.std.specs.Prelude.{◌≡◌};
ghost use Rattle.splitting.specs.Fault.{refusal};

// Why a split is refused.
#[derive(Clone, Copy, PartialEq, Eq, Debug)]
pub enum Fault {
    // The caller's list is too short; holds the places needed.
    ListTooShort(usize),
    // The total is above 0 and the weights add up to 0.
    NothingWeighs,
    // Too many weights, too large a sum of weights, or too large a total.
    LimitPassed,
}

impl Fault {
    // The letter of the layer in which the fault arose.
    pub fn layer(self) -> char
        ensures { result ≡ (refusal self).layer }
    {
        'S'
    }

    // The row of the table of refusals.
    pub fn row(self) -> u32
        ensures { result ≡ (refusal self).row }
    {
        match self {
            Fault::ListTooShort(_) => 14,
            Fault::NothingWeighs => 16,
            Fault::LimitPassed => 17,
        }
    }

    // What the fault is about; the table of refusals names 0 where it is about no number.
    pub fn subject(self) -> u64
        ensures { result ≡ (refusal self).subject }
    {
        match self {
            Fault::ListTooShort(needed) => needed as u64,
            Fault::NothingWeighs | Fault::LimitPassed => 0,
        }
    }
}
