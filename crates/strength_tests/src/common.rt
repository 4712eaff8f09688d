// What the tests share: a table of whole runs, what the checker tells of it, and the verdicts in short.
use numbers::power;
use refusal::{Fault, Layer, Slip};
use std::alloc::Global;
use std::process::Abort;
use std::test::Fail;
use strength::cell::Levelled;
use strength::checking::check;
use strength::claim::{Claim, Failure, Verdict};

// What the counters hold before a check.
const HELD: u32 = 7;

// What the checker tells, with so many counters. They are all 0 after an answer, and as they were after a refusal.
pub(crate) fn ask<C: Levelled>(
    rt: &impl Abort,
    heap: Global,
    claim: Claim,
    table: &[C],
    counters: usize,
) -> Result<Result<Verdict, Slip>, Fail> {
    let mut counters = vec![in heap; HELD; counters]?;
    let told = check(claim, table, &mut counters).map_err(|fault| fault.slip());
    let left = if told.is_ok() { 0 } else { HELD };
    assert!(rt; counters.iter().all(|counter| *counter == left));
    Ok(told)
}

// Kept: these three stand in the checker's own tests too, as the two crates share no third.
// The slip of a refusal by the checker.
pub(crate) fn slip(number: u8, place: usize) -> Slip {
    Slip {
        number,
        layer: Layer::Checker,
        place,
    }
}

// That a table is an array of this index.
pub(crate) fn yes(index: u32) -> Result<Verdict, Slip> {
    Ok(Verdict::Yes { index })
}

// That a table first fails so.
pub(crate) fn no(columns: u32, combination: u32, count: u32) -> Result<Verdict, Slip> {
    Ok(Verdict::No(Failure {
        columns,
        combination,
        count,
    }))
}

// Whole runs of so many factors.
#[derive(Drop)]
pub(crate) struct Table<C> {
    pub(crate) levels: u32,
    pub(crate) factors: u32,
    pub(crate) cells: Vec<C>,
}

impl<C: Levelled> Table<C> {
    // What the checker tells of all runs at this strength, with as many counters as it wants.
    pub(crate) fn told(
        &self,
        rt: &(impl Abort + AllocGlobal),
        strength: u32,
    ) -> Result<Result<Verdict, Slip>, Fail> {
        let claim = Claim {
            levels: self.levels,
            strength,
            factors: self.factors,
            runs: u32::try_from(self.cells.len() / self.factors.max(1) as usize)?,
        };
        let counters = power(self.levels, strength).ok_or("too many combinations")?;
        ask(rt, rt.alloc(), claim, &self.cells, counters as usize)
    }
}

// The table of runs that are written in digits, with anything between them.
pub(crate) fn written(
    heap: Global,
    levels: u32,
    factors: u32,
    runs: &str,
) -> Result<Table<u8>, Fail> {
    Ok(Table {
        levels,
        factors,
        cells: cells(heap, runs)?,
    })
}

// The cells of runs that are written in digits, with anything between them.
pub(crate) fn cells(heap: Global, runs: &str) -> Result<Vec<u8>, Fail> {
    let digits = runs.bytes().filter(u8::is_ascii_digit);
    Ok(digits.map(|byte| byte.wrapping_sub(b'0')).collect(heap)?)
}
