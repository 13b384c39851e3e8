ghost use Rattle.std.specs.Prelude.{◌≡◌, ℕ, List, length};
ghost use Rattle.splitting.specs.Rule.{Splits};

use crate::charge::AcceptedCharge;
use crate::fault::Fault;

// A rule that writes the shares of an accepted charge.
pub(crate) trait WriteShares {
    // The shares of a total over the weights.
    ghost shares_of: { ℕ → List ℕ → List ℕ };

    // Writes the shares, one for each weight.
    fn write_shares(charge: &AcceptedCharge, shares: &mut [u64])
        requires { length shares.old ≡ length charge.now.weights.now }
        ensures { shares.new ≡ shares_of charge.now.total charge.now.weights.now };
}

// Writes the shares by the rule into the leading places of the list, unless the charge is refused.
pub(crate) fn split_accepted<R: WriteShares>(
    total: u64,
    weights: &[u32],
    shares: &mut [u64],
) -> Result<(), Fault>
    ensures { Splits R.shares_of total weights.now shares.old result shares.new }
{
    let charge = AcceptedCharge::new(shares.len(), total, weights)?;
    R::write_shares(&charge, &mut shares[..weights.len()]);
    Ok(())
}
