// What the checker answers to a table, in words. Rests on the checker.
use crate::fault::Unanswered;
use crate::table::Table;
use numbers::power;
use std::alloc::{AllocError, Global};
use std::{fmt, iter};
use strength::checking::check;
use strength::claim::{Claim, Failure, Verdict};

// Levels at some columns that do not come as often as all others do.
#[derive(Drop)]
pub struct Uneven {
    // each column with its level
    levels: Vec<(u32, u32)>,
    // how many runs have them
    count: u32,
}

#[derive(Drop)]
pub enum Answer {
    // an orthogonal array of this index
    Array(u32),
    // not one
    Uneven(Uneven),
}

impl Answer {
    // What the checker answers.
    pub fn of(heap: Global, table: &Table) -> Result<Answer, Unanswered> {
        let mut counters = counters_for(heap, table.claim)?;
        match check(table.claim, &table.cells, &mut counters)? {
            Verdict::Yes { index } => Ok(Answer::Array(index)),
            Verdict::No(failure) => Ok(Answer::Uneven(Uneven::of(
                heap,
                table.claim.levels,
                failure,
            )?)),
        }
    }
}

// As many counters as the checker wants, or none where it refuses the claim before it looks at them.
fn counters_for(heap: Global, claim: Claim) -> Result<Vec<u32>, AllocError> {
    let combinations = match claim.levels {
        2..=16 => power(claim.levels, claim.strength),
        _ => None,
    };
    vec![in heap; 0u32; combinations.unwrap_or(0) as usize]
}

impl Uneven {
    // The failure with its columns, each with its level. The last column has the lowest digit of the combination.
    fn of(heap: Global, levels: u32, failure: Failure) -> Result<Uneven, AllocError> {
        let columns = (0..32)
            .rev()
            .filter(|k| failure.columns.wrapping_shr(*k) & 1 == 1);
        let digits = iter::successors(
            Some(failure.combination),
            |rest| rest.checked_div(levels),
        ).map_while(|rest| rest.checked_rem(levels));
        let mut levels: Vec<(u32, u32)> = columns.zip(digits).collect(heap)?;
        levels.reverse();
        Ok(Uneven {
            levels,
            count: failure.count,
        })
    }
}

impl fmt::Display for Answer {
    fn fmt<W: fmt::Write>(&self, f: &mut fmt::Formatter<W>) -> fmt::Result {
        match self {
            Answer::Array(index) => write!(f, "yes: index {index}"),
            Answer::Uneven(uneven) => write!(f, "no: {uneven}"),
        }
    }
}

impl fmt::Display for Uneven {
    fn fmt<W: fmt::Write>(&self, f: &mut fmt::Formatter<W>) -> fmt::Result {
        f.write_str("columns")?;
        for (column, _) in self.levels.iter() {
            write!(f, " {column}")?;
        }
        f.write_str(", levels")?;
        for (_, level) in self.levels.iter() {
            write!(f, " {level}")?;
        }
        let count = self.count;
        write!(f, ": {count} times")
    }
}
