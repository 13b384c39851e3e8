ghost use Rattle.std.specs.Prelude.{◌≡◌, ◌<◌, ◌≤◌, length, slice_index, sum, Ok, Err, MatchResult};
ghost use Rattle.splitting.specs.Proportion.{remainder, whole_cents};
ghost use Rattle.splitting.specs.Weights.{first_fault, Limited};

use crate::fault::Fault;
use crate::weights::accept;

// A charge that can be split: the total, the weights, and the sum of the weights.
#[derive(Clone, Copy)]
pub(crate) struct AcceptedCharge<'a> {
    pub(crate) total: u64,
    pub(crate) weights: &'a [u32],
    pub(crate) all: u64,
    ghost limits: { Limited total weights.now },
    ghost weighed: { all ≡ sum weights.now },
}

impl<'a> AcceptedCharge<'a> {
    // The charge, unless it cannot be split into a list with so many places.
    pub(crate) fn new(
        places: usize,
        total: u64,
        weights: &'a [u32],
    ) -> Result<AcceptedCharge<'a>, Fault>
        ensures { MatchResult result
            (λ charge. (charge.total ≡ total) × (charge.weights.now ≡ weights.now) × (Ok charge.all ≡ first_fault Err (Ok (sum weights.now)) places total weights.now))
            (λ fault. Err fault ≡ first_fault Err (Ok (sum weights.now)) places total weights.now) }
    {
        let all = accept(places, total, weights)?;
        Ok(AcceptedCharge {
            total,
            weights,
            all,
        })
    }

    // The weight of a place.
    // A place stays a number: places_before goes over all of them, and a type for it would be built with its bound at each turn, to be used once.
    pub(crate) fn weight_at(&self, place: usize) -> u64
        requires { place < length self.now.weights.now }
        ensures { result ≡ slice_index self.now.weights.now place }
    {
        u64::from(self.weights[place])
    }

    // The whole cents of the total that fall to so much of the weight.
    pub(crate) fn whole_cents(&self, part: u64) -> u64
        requires { part ≤ 64000000 }
        ensures { result ≡ whole_cents self.now.total part self.now.all }
    {
        (self.total * part).checked_div(self.all).unwrap_or(0)
    }

    // What the whole cents leave of total × part.
    pub(crate) fn remainder(&self, part: u64) -> u64
        requires { part ≤ 64000000 }
        ensures { result ≡ remainder self.now.total part self.now.all }
    {
        let product = self.total * part;
        product.checked_rem(self.all).unwrap_or(product)
    }
}
