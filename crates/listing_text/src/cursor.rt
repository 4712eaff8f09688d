// A cursor over bytes that reads one numeral after another.
ghost use Rattle.std.specs.Prelude.{ℕ, ◌<◌, List, MatchOption};
ghost use Rattle.listing_text.specs.Grammar.{Field};

use crate::number::{DIGITS, numeral};

// What is left to read.
#[derive(Drop)]
pub(crate) struct Cursor<'a> {
    pub(crate) rest: &'a [u8],
}

impl Cursor<'_> {
    // The numeral before the byte `end`, which is passed over; nothing where no such numeral comes next.
    pub(crate) fn numeral(&mut self, end: u8) -> Option<u32>
        requires { end < 48 }
        ensures value { MatchOption result ((n : ℕ) (after : List ℕ) → Field end self.old.rest.now n after → ⊥) (λ n. Field end self.old.rest.now n self.new.rest.now) }
    {
        let bytes = self.rest;
        // Looked for no further on than the end of the longest numeral can stand.
        let near = &bytes[..bytes.len().min(DIGITS + 1)];
        let at = near.iter().position(|byte| *byte == end)?;
        self.rest = &bytes[at + 1..];
        numeral(&bytes[..at])
    }
}
