ghost use Rattle.std.specs.Prelude.{◌≡◌, ℕ, ◌+◌, ◌/◌, ℤ};
ghost use Rattle.prices.specs.Average.{nearest, Nearest};

// A sum of 60 whole figures as 60 times their rounded average, half up, and the signed remainder.
pub fn nearest_sixtieth(sum: u64) -> (u64, i32)
    ensures value { result.0 ≡ nearest sum }
    ensures words { Nearest sum result.0 result.1 }
    ensures only { (average : ℕ) (remainder : ℤ) → Nearest sum average remainder → (average ≡ result.0) × (remainder ≡ result.1) }
{
    let whole = sum / 60;
    let rest = (sum % 60) as i32;
    if rest <= 29 {
        (whole, rest)
    } else {
        (whole + 1, rest - 60)
    }
}
