// How long a work takes, and how long the rows of the whole strip do.
use crate::hashed::{Hashed, checksum, fill};
use std::time::Instant;
use strip::cell::Cell;

// How often each work is timed.
pub(crate) const RUNS: usize = 21;

// What a work gives, and the nanoseconds that it takes.
pub(crate) fn timed<T: Drop, F: FnOnce() -> anyhow::Result<T> + Drop>(
    rt: &HostRuntime,
    work: F,
) -> anyhow::Result<(T, u128)>
    requires { F.IsAlwaysCallable work }
{
    let start = Instant::now(rt)?;
    let given = work()?;
    Ok((given, start.elapsed(rt)?.as_nanos()))
}

fn print_time(rt: &HostRuntime, what: &str, nanos: u128) -> anyhow::Result<()> {
    println!(rt;
        "{what} milliseconds {}.{:03}",
        nanos / 1000000,
        nanos / 1000 % 1000
    )?;
    Ok(())
}

// The median and the fastest of the times of all runs.
pub(crate) fn print_times(rt: &HostRuntime, times: &mut [u128; RUNS]) -> anyhow::Result<()> {
    times.sort_unstable();
    print_time(rt, "median", times[RUNS / 2])?;
    print_time(rt, "fastest", times[0])
}

// The rows of the whole strip, written into the same table again and again.
pub(crate) fn print_rows(
    rt: &HostRuntime,
    strip: &Hashed,
    table: &mut [Cell],
) -> anyhow::Result<()> {
    let mut times = [0u128; RUNS];
    let mut sum = 0u32;
    for time in times.iter_mut() {
        let (_, nanos) = timed(rt, || fill(strip, table))?;
        *time = nanos;
        sum = sum.wrapping_add(checksum(table));
    }
    println!(rt;
        "rows: {} cells, {RUNS} runs, sum of checksums {sum}",
        table.len()
    )?;
    print_times(rt, &mut times)
}
