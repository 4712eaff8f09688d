// The words of a line, one after another, and the numbers that they write.
ghost use Rattle.std.specs.Prelude.{◌≡◌, ℕ, ◌<◌, ◌≤◌, List, length, take, MatchOption, ◌≢◌, slice_index};
ghost use Rattle.line_text.specs.Words.{is_blank, Trimmed, Only, Next, Over, NextNumber, NoNumber};
ghost use Rattle.std.specs.Iterator.{at_most};

use listing_text::number::numeral;

// The words of a line, between spaces and tabs, that are still to come.
#[derive(Drop)]
pub struct Words<'a> {
    rest: &'a [u8],
}

impl<'a> Words<'a> {
    // A carriage return at the end of the line is no part of it.
    pub fn of(line: &'a [u8]) -> Words<'a>
        ensures { Trimmed line.now result.rest.now }
    {
        let rest = match line {
            [front @ .., b'\r'] => front,
            _ => line,
        };
        Words { rest }
    }

    // The next word.
    pub fn next_word(&mut self) -> Option<&'a [u8]>
        ensures { MatchOption result (Over self.old.rest.now self.new.rest.now) (λ w. Next self.old.rest.now w.now self.new.rest.now) }
    {
        let line = self.rest;
        let start = line.iter().position(|byte| !is_blank(*byte));
        let text = &line[start.unwrap_or(line.len())..];
        let end = text.iter().position(|byte| is_blank(*byte));
        let (word, rest) = text.split_at(end.unwrap_or(text.len()));
        self.rest = rest;
        if word.is_empty() { None } else { Some(word) }
    }

    // The number that the next word writes.
    pub fn number(&mut self) -> Option<u32>
        ensures { MatchOption result (NoNumber self.old.rest.now self.new.rest.now) (λ n. NextNumber self.old.rest.now n self.new.rest.now) }
    {
        numeral(self.next_word()?)
    }

    // That no word is left.
    pub fn end(&mut self) -> Option<()>
        ensures { MatchOption result ((word : List ℕ) × Next self.old.rest.now word self.new.rest.now) (λ _. Over self.old.rest.now self.new.rest.now) }
    {
        self.next_word().is_none().then_some(())
    }
}

impl<'a> Iterator for Words<'a> {
    type Item = &'a [u8];

    ghost next_gives = { λ s r t. MatchOption r (Over s.rest.now t.rest.now) (λ w. Next s.rest.now w.now t.rest.now) };

    ghost remaining = { λ s. at_most (length s.rest.now) };

    fn next(&mut self) -> Option<&'a [u8]> {
        self.next_word()
    }
}

fn is_blank(byte: u8) -> bool
    ensures { result ≡ is_blank byte }
{
    byte == b' ' || byte == b'\t'
}
