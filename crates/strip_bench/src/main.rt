// Prints the checksum of a large strip's rows and, given the argument `time`, how long rows, find, locate and a check take.
#![tactic(auto)]

mod calls;
mod checks;
mod hashed;
mod timing;

use crate::calls::print_calls;
use crate::checks::print_checks;
use crate::hashed::{checksum, fill, plan_large, unwritten};
use crate::timing::print_rows;
use std::env;

// Whether the first argument asks for times.
fn wants_times(rt: &HostRuntime) -> anyhow::Result<bool> {
    let word = env::args(rt)?.nth(1);
    Ok(word.is_some_and(|word| word.as_str() == "time"))
}

fn run(rt: &HostRuntime) -> anyhow::Result<()> {
    let strip = plan_large()?;
    let mut table = unwritten(rt.alloc(), &strip)?;
    fill(&strip, &mut table)?;
    println!(rt; "checksum {}", checksum(&table))?;
    if wants_times(rt)? {
        print_rows(rt, &strip, &mut table)?;
        print_calls(rt, &strip, &table)?;
        print_checks(rt)?;
    }
    Ok(())
}

fn main(rt: HostRuntime) -> anyhow::Result<()> {
    run(&rt)
}
