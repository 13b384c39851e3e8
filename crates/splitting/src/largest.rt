ghost use Rattle.std.specs.Prelude.{◌≡◌, ◌+◌, ◌<◌, ltb, length, if◌then◌else◌};
ghost use Rattle.splitting.specs.Largest.{largest, larger, leftover, remainder_at, whole_at};
ghost use Rattle.splitting.specs.Places.{rank};
ghost use Rattle.splitting.specs.Remainders.{largest_lawful};

use crate::charge::AcceptedCharge;
use crate::fault::Fault;
use crate::rule::Apportion;
use crate::write_shares::{WriteShares, split_accepted};
use std::cmp::Reverse;

// Each place gets its whole cents, and the places with the largest remainders one cent more.
#[derive(Clone, Copy)]
pub struct Largest;

impl Apportion for Largest {
    ghost meaning = { λ _. largest };

    ghost lawful = { λ _. largest_lawful };

    fn split(&self, total: u64, weights: &[u32], shares: &mut [u64]) -> Result<(), Fault> {
        split_accepted::<Largest>(total, weights, shares)
    }
}

impl WriteShares for Largest {
    ghost shares_of = { largest };

    fn write_shares(charge: &AcceptedCharge, shares: &mut [u64]) {
        let left = charge.cents_left();
        for (place, share) in shares.iter_mut().enumerate() {
            *share = charge.share_at(left, place);
        }
    }
}

impl AcceptedCharge<'_> {
    // A place's whole cents, and one cent more if fewer places come before it than cents are left.
    fn share_at(&self, left: u64, place: usize) -> u64
        requires { place < length self.now.weights.now }
        ensures { result ≡ whole_at self.now.total self.now.weights.now place + (if ltb (rank (larger self.now.total self.now.weights.now) (length self.now.weights.now) place) left then 1 else 0) }
    {
        self.whole_at(place) + u64::from(self.places_before(place) < left)
    }

    // The whole cents of a place.
    fn whole_at(&self, place: usize) -> u64
        requires { place < length self.now.weights.now }
        ensures { result ≡ whole_at self.now.total self.now.weights.now place }
    {
        self.whole_cents(self.weight_at(place))
    }

    // The remainder of a place.
    fn remainder_at(&self, place: usize) -> u64
        requires { place < length self.now.weights.now }
        ensures { result ≡ remainder_at self.now.total self.now.weights.now place }
    {
        self.remainder(self.weight_at(place))
    }

    // The cents that are missing from the total once each place has its whole cents.
    fn cents_left(&self) -> u64
        ensures { result ≡ leftover self.now.total self.now.weights.now }
    {
        let given: u64 = self
            .weights
            .iter()
            .map(|weight| self.whole_cents(u64::from(*weight)))
            .sum();
        self.total - given
    }

    // How many places come before this one.
    fn places_before(&self, place: usize) -> u64
        requires { place < length self.now.weights.now }
        ensures { result ≡ rank (larger self.now.total self.now.weights.now) (length self.now.weights.now) place }
    {
        let own = self.precedence(place);
        (0..self.weights.len())
            .filter(|other| self.precedence(*other) < own)
            .count() as u64
    }

    // What orders the places: the larger remainder comes first, and of equal ones the earlier place.
    fn precedence(&self, place: usize) -> (Reverse<u64>, usize)
        requires { place < length self.now.weights.now }
        ensures { (result.0.0 ≡ remainder_at self.now.total self.now.weights.now place) × (result.1 ≡ place) }
    {
        (Reverse(self.remainder_at(place)), place)
    }
}
