ghost use Rattle.splitting.specs.Either.{chosen};
ghost use Rattle.splitting.specs.declared.either.Either.TheVariants.{First, Second};

use crate::fault::Fault;
use crate::rule::Apportion;

// One of two rules, chosen at run time.
// Callers name the two variants, so the enum is this crate's own.
#[derive(Clone, Copy, Drop)]
pub enum Either<P, Q> {
    First(P),
    Second(Q),
}

impl<P: Apportion, Q: Apportion> Apportion for Either<P, Q> {
    ghost meaning = { chosen P.Apportion.meaning Q.Apportion.meaning };

    ghost lawful = { elim [
      | First rule ↦ P.Apportion.lawful rule
      | Second rule ↦ Q.Apportion.lawful rule
    ] };

    fn split(&self, total: u64, weights: &[u32], shares: &mut [u64]) -> Result<(), Fault> {
        match self {
            Either::First(rule) => rule.split(total, weights, shares),
            Either::Second(rule) => rule.split(total, weights, shares),
        }
    }
}
