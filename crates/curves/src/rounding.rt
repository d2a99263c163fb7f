// Rounding by digit.
ghost use Rattle.std.specs.Prelude.{◌≡◌, ◌+◌, ◌/◌, ◌^◌, ◌<◌, ◌≤◌};
ghost use Rattle.curves.specs.Rounding.{by_digit, first_decimal};

// The highest first dropped decimal that adds nothing (6.1.2.2).
const LAST_DIGIT_DOWN: u8 = 5;

// `x` divided by `by`, rounded by digit.
pub(crate) fn rounded(x: u64, by: u64) -> u64
    requires least { 0 < by }
    requires most { by ≤ 10 ^ 18 }
    requires room { x < 2 ^ 63 }
    ensures answer { result ≡ by_digit x by }
    ensures bound { result ≤ x / by + 1 }
{
    let (quotient, digit) = divided(x, by);
    if digit <= LAST_DIGIT_DOWN {
        quotient
    } else {
        quotient + 1
    }
}

// The whole quotient, and the first decimal that it drops.
#[tactic(auto, using(crate::proofs::Decimals::decimal))]
fn divided(x: u64, by: u64) -> (u64, u8)
    requires least { 0 < by }
    requires most { by ≤ 10 ^ 18 }
    ensures quotient { result.0 ≡ x / by }
    ensures digit { result.1 ≡ first_decimal x by }
{
    (x / by, (10 * (x % by) / by) as u8)
}
