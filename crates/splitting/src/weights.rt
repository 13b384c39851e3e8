ghost use Rattle.std.specs.Prelude.{◌≡◌, ◌+◌, ◌≤◌, min, Ok, Err, sum};
ghost use Rattle.splitting.specs.Weights.{first_fault, Topmost};

use crate::fault::Fault;

const MOST_WEIGHTS: usize = 32;

const MOST_KWH: u64 = 64_000_000;

const MOST_CENTS: u64 = 10_000_000_000;

// The sum of the weights, counted no further than one past the limit.
// The project asks for this form: a `for` over the slice with a bounded running sum.
pub fn weigh(weights: &[u32]) -> u64
    ensures { result ≡ min (sum weights.now) 64000001 }
{
    let mut sum: u64 = 0;
    for weight in weights {
        sum = capped_sum(sum, *weight);
    }
    sum
}

// The sum with one more weight, counted no further than one past the limit.
fn capped_sum(front: u64, weight: u32) -> u64
    requires { front ≤ 64000001 }
    ensures { result ≡ min (front + weight) 64000001 }
{
    (front + u64::from(weight)).min(MOST_KWH + 1)
}

// The sum of the weights over which the total may be split into a list with so many places.
pub fn accept(places: usize, total: u64, weights: &[u32]) -> Result<u64, Fault>
    ensures answer { result ≡ first_fault Err (Ok (sum weights.now)) places total weights.now }
    ensures topmost { Topmost places total weights.now result }
{
    if places < weights.len() {
        return Err(Fault::ListTooShort(weights.len()));
    }
    let sum = weigh(weights);
    if total > 0 && sum == 0 {
        return Err(Fault::NothingWeighs);
    }
    if weights.len() > MOST_WEIGHTS || sum > MOST_KWH || total > MOST_CENTS {
        return Err(Fault::LimitPassed);
    }
    Ok(sum)
}
