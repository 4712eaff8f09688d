// How long a find and a locate take, and how long looking for the same through the rows does.
use crate::hashed::Hashed;
use crate::timing::timed;
use anyhow::{Context, anyhow};
use strip::cell::Cell;
use strip::wish::Wish;

const CALLS: u32 = 10000;

const SCANS: u32 = 20;

// Four wishes on different factors, others for each k.
fn wishes_of(k: u32) -> [Wish; 4] {
    [0u32, 1, 2, 3].map(|j| Wish {
        factor: k.wrapping_add(j.wrapping_mul(3)) % 13,
        level: (k / 13).wrapping_add(j.wrapping_mul(k)) % 13,
    })
}

fn find(strip: &Hashed, k: u32) -> anyhow::Result<u32> {
    strip
        .find(&wishes_of(k))
        .map_err(|_| anyhow!("the wishes are refused"))
}

// A factor and a fine setting, others for each k.
fn setting_of(k: u32) -> (u32, u32) {
    (k % 13, k.wrapping_mul(7919) % 28561)
}

fn locate(strip: &Hashed, k: u32) -> anyhow::Result<u32> {
    let (factor, fine) = setting_of(k);
    strip
        .locate(factor, fine)
        .map_err(|_| anyhow!("the fine setting is refused"))
}

// The label of the first row that passes.
fn scan<F: Fn(&[Cell]) -> bool>(table: &[Cell], passes: F) -> anyhow::Result<u32>
    requires { F.IsAlwaysCallable passes }
{
    let label = table
        .chunks_exact(13)
        .position(|row| passes(row))
        .context("no row passes")?;
    Ok(u32::try_from(label)?)
}

// The first row that has every wished level.
fn scan_find(table: &[Cell], k: u32) -> anyhow::Result<u32> {
    let wishes = wishes_of(k);
    scan(table, |row| {
        wishes.iter().all(|wish| {
            row.get(wish.factor as usize)
                .is_some_and(|cell| u32::from(cell.level) == wish.level)
        })
    })
}

// The first row that has the fine setting.
fn scan_locate(table: &[Cell], k: u32) -> anyhow::Result<u32> {
    let (factor, fine) = setting_of(k);
    scan(table, |row| {
        row.get(factor as usize)
            .is_some_and(|cell| u32::from(cell.fine) == fine)
    })
}

// Prints the time a call, and the sum of the labels that the calls answered.
fn print_calls_of<F: Fn(u32) -> anyhow::Result<u32>>(
    rt: &HostRuntime,
    what: &str,
    calls: u32,
    call: F,
) -> anyhow::Result<()>
    requires { F.IsAlwaysCallable call }
{
    let (sum, nanos) = timed(rt, || {
        (0..calls).try_fold(0u32, |sum, k| Ok(sum.wrapping_add(call(k)?)))
    })?;
    println!(rt;
        "{what}: {calls} calls, {} nanoseconds a call, sum of labels {sum}",
        nanos / u128::from(calls.max(1))
    )?;
    Ok(())
}

// Many calls; and few, whose sums have to be those of the scans.
pub(crate) fn print_calls(rt: &HostRuntime, strip: &Hashed, table: &[Cell]) -> anyhow::Result<()> {
    for calls in [CALLS, SCANS] {
        print_calls_of(rt, "find", calls, |k| find(strip, k))?;
        print_calls_of(rt, "locate", calls, |k| locate(strip, k))?;
    }
    print_calls_of(rt, "find by scanning", SCANS, |k| scan_find(table, k))?;
    print_calls_of(rt, "locate by scanning", SCANS, |k| scan_locate(table, k))
}
