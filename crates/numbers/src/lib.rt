// Powers up to the largest number of labels. Rests on nothing.
#![tactic(auto)]

ghost use Rattle.std.specs.Prelude.{◌≡◌, ◌^◌, ◌<◌, ◌≤◌, MatchOption};

// base^exponent, or nothing where that is above 65,536.
pub fn power(base: u32, exponent: u32) -> Option<u32>
    ensures { MatchOption result (65536 < base ^ exponent) (λ n. (n ≡ base ^ exponent) × (n ≤ 65536)) }
{
    base.checked_pow(exponent).filter(|n| *n <= 65536)
}
