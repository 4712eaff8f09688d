// How long the check of the whole table of a strip takes.
use crate::hashed::{Hashed, fill, plan_small, unwritten};
use crate::timing::{RUNS, print_times, timed};
use anyhow::{Context, anyhow};
use numbers::power;
use strength::checking::check;
use strength::claim::{Claim, Verdict};
use strip::cell::Cell;

// What is claimed of a strip.
fn claim_of(strip: &Hashed) -> Claim {
    Claim {
        levels: strip.plan.levels,
        strength: strip.plan.strength,
        factors: strip.plan.factors,
        runs: strip.plan.labels,
    }
}

// The index that the check answers.
fn index_of(claim: Claim, table: &[Cell], counters: &mut [u32]) -> anyhow::Result<u32> {
    match check(claim, table, counters).map_err(|_| anyhow!("the table is refused"))? {
        Verdict::Yes { index } => Ok(index),
        Verdict::No(_) => Err(anyhow!("the table is no orthogonal array")),
    }
}

// The check of the same table of cells again and again.
pub(crate) fn print_checks(rt: &HostRuntime) -> anyhow::Result<()> {
    let strip = plan_small()?;
    let claim = claim_of(&strip);
    let mut table = unwritten(rt.alloc(), &strip)?;
    fill(&strip, &mut table)?;
    let combinations = power(claim.levels, claim.strength).context(
        "there are too many combinations",
    )?;
    let mut counters = vec![in rt.alloc(); 0u32; combinations as usize]?;
    let mut times = [0u128; RUNS];
    let mut index = 0;
    for time in times.iter_mut() {
        (index, *time) = timed(rt, || index_of(claim, &table, &mut counters))?;
    }
    let cells = table.len();
    println!(rt; "check: {cells} cells, {RUNS} runs, yes: index {index}")?;
    print_times(rt, &mut times)
}
