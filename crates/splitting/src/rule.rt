ghost use Rattle.std.specs.Prelude.{◌≡◌, ℕ, List, length, take, OnOk};
ghost use Rattle.splitting.specs.Rule.{Fair, Lawful, Splits};

use crate::fault::Fault;

// An apportioning rule: splits a total in cents over weights in kWh.
pub trait Apportion {
    // The shares of a total over the weights.
    ghost meaning: { Self → ℕ → List ℕ → List ℕ };

    // Writes the shares into the leading places of the list.
    fn split(&self, total: u64, weights: &[u32], shares: &mut [u64]) -> Result<(), Fault>
        ensures splits { Splits (meaning self.now) total weights.now shares.old result shares.new }
        ensures kept { self.now ≡ self.now };

    ghost lawful: { (rule : Self) → Lawful (meaning rule) };
}

// Splits by any rule, with what the rules' law says of the shares that are written.
pub fn split_by<R: Apportion>(
    rule: &R,
    total: u64,
    weights: &[u32],
    shares: &mut [u64],
) -> Result<(), Fault>
    ensures splits { Splits (R.Apportion.meaning rule.now) total weights.now shares.old result shares.new }
    ensures fair { OnOk result (Fair total weights.now (take (length weights.now) shares.new)) }
{
    rule.split(total, weights, shares)
}
