// The number that a word writes. Rests on nothing.
ghost use Rattle.std.specs.Prelude.{ℕ, MatchOption};
ghost use Rattle.listing_text.specs.Grammar.{Numeral};

// A numeral has no more digits than these.
pub(crate) const DIGITS: usize = 10;

// The number below 2^32 that a word of one to ten digits writes.
pub fn numeral(word: &[u8]) -> Option<u32>
    ensures { MatchOption result ((n : ℕ) → Numeral word.now n → ⊥) (λ n. Numeral word.now n) }
{
    if word.is_empty() || word.len() > DIGITS {
        return None;
    }
    let mut value = 0u64;
    for byte in word {
        let digit = char::from(*byte).to_digit(10)?;
        value = value * 10 + u64::from(digit);
    }
    u32::try_from(value).ok()
}
