// The lines after a script's last: the effects of each factor, or how far the grading has come. Rests on how a word is read.
ghost use Rattle.std.specs.Prelude.{◌+◌, ◌≤◌, length};

use book::standing::Standing;
use std::fmt;

// A factor, with the sum of the grades at each level less that at level 0.
#[derive(Drop)]
pub struct Effects<'a> {
    pub factor: u32,
    pub sums: &'a [i64],
}

impl Effects<'_> {
    // The level with the largest sum, the lowest such level where several have it.
    fn best(&self) -> usize {
        // from the highest level down, since the last of several is taken
        let downward = self.sums.iter().enumerate().rev();
        let best = downward.max_by_key(|(_, sum)| **sum);
        best.map_or(0, |(level, _)| level)
    }
}

impl fmt::Display for Effects<'_> {
    fn fmt<W: fmt::Write>(&self, f: &mut fmt::Formatter<W>) -> fmt::Result {
        let factor = self.factor;
        write!(f, "factor {factor}:")?;
        for (a, high) in self.sums.iter().enumerate() {
            let comma = if a > 1 { "," } else { "" };
            for (b, low) in self.sums.iter().enumerate().take(a) {
                let effect = high.saturating_sub(*low);
                write!(f, "{comma} {a}-{b} {effect}")?;
            }
        }
        let best = self.best();
        write!(f, "; best level {best}")
    }
}

// How many labels stand how.
#[derive(Clone, Copy)]
pub struct Tally {
    waiting: usize,
    out: usize,
    graded: usize,
}

impl Tally {
    pub fn of(words: &[u16]) -> Tally
        ensures { result.waiting + (result.out + result.graded) ≤ length words.now }
    {
        let mut waiting = 0;
        let mut out = 0;
        let mut graded = 0;
        for word in words {
            match Standing::read(*word) {
                Standing::Waiting => waiting += 1,
                Standing::Out => out += 1,
                Standing::Graded(_) => graded += 1,
                // no call leaves one
                Standing::Torn => {}
            }
        }
        Tally {
            waiting,
            out,
            graded,
        }
    }
}

impl fmt::Display for Tally {
    fn fmt<W: fmt::Write>(&self, f: &mut fmt::Formatter<W>) -> fmt::Result {
        let Tally {
            waiting,
            out,
            graded,
        } = *self;
        write!(
            f,
            "not finished: {waiting} waiting, {out} out, {graded} graded"
        )
    }
}
