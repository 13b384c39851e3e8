ghost use Rattle.std.specs.Prelude.{◌≡◌, ◌+◌, ◌-◌, ◌≤◌};
ghost use Rattle.splitting.specs.Proportion.{whole_cents};
ghost use Rattle.splitting.specs.Running.{running};
ghost use Rattle.splitting.specs.Gains.{running_lawful};

use crate::charge::AcceptedCharge;
use crate::fault::Fault;
use crate::rule::Apportion;
use crate::write_shares::{WriteShares, split_accepted};

// Each place gets what the running total of whole cents gains with its weight.
#[derive(Clone, Copy)]
pub struct Running;

impl Apportion for Running {
    ghost meaning = { λ _. running };

    ghost lawful = { λ _. running_lawful };

    fn split(&self, total: u64, weights: &[u32], shares: &mut [u64]) -> Result<(), Fault> {
        split_accepted::<Running>(total, weights, shares)
    }
}

impl WriteShares for Running {
    ghost shares_of = { running };

    fn write_shares(charge: &AcceptedCharge, shares: &mut [u64]) {
        let mut front: u64 = 0;
        // A zip of the shares with the weights leaves the proof no fact about what it wrote.
        for (place, share) in shares.iter_mut().enumerate() {
            let weight = charge.weight_at(place);
            *share = charge.gain(front, weight);
            front += weight;
        }
    }
}

impl AcceptedCharge<'_> {
    // The whole cents with the weight less those without it.
    fn gain(&self, front: u64, weight: u64) -> u64
        requires { front + weight ≤ 64000000 }
        ensures { result ≡ whole_cents self.now.total (front + weight) self.now.all - whole_cents self.now.total front self.now.all }
    {
        let given = self.whole_cents(front);
        let reached = self.whole_cents(front + weight);
        reached - given
    }
}
