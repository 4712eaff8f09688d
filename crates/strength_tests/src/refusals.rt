// Every refusal of the checker, alone and where later rows of the refusal table hold too.
use crate::common::{ask, cells, slip};
use refusal::Slip;
use std::process::Abort;
use std::test::Fail;
use strength::claim::Claim;

fn claim(levels: u32, strength: u32, factors: u32, runs: u32) -> Claim {
    Claim {
        levels,
        strength,
        factors,
        runs,
    }
}

// That a claim of a table in digits is refused so, with so many counters.
fn refused(
    rt: &(impl Abort + AllocGlobal),
    claim: Claim,
    digits: &str,
    counters: usize,
    refusal: Slip,
) -> Result<(), Fail> {
    let heap = rt.alloc();
    let table = cells(heap, digits)?;
    assert_eq!(rt; ask(rt, heap, claim, &table, counters)?, Err(refusal));
    Ok(())
}

#[test]
fn numbers_of_a_claim(rt: HostRuntime) -> Result<(), Fail> {
    for (claim, digits, counters, refusal) in [
        (claim(0, 1, 1, 1), "0", 1, slip(1, 0)),
        (claim(1, 1, 1, 1), "0", 1, slip(1, 0)),
        (claim(17, 1, 1, 1), "0", 17, slip(1, 0)),
        (claim(u32::MAX, 0, 0, 0), "9", 4, slip(1, 0)),
        (claim(2, 1, 0, 2), "01", 2, slip(2, 0)),
        (claim(2, 1, 18, 1), "01", 2, slip(2, 0)),
        (claim(16, u32::MAX, u32::MAX, 0), "9", 0, slip(2, 0)),
        (claim(2, 0, 1, 2), "01", 1, slip(3, 0)),
        (claim(2, 2, 1, 2), "01", 4, slip(3, 0)),
        (claim(16, 18, 17, 0), "9", 3, slip(3, 0)),
    ] {
        refused(&rt, claim, digits, counters, refusal)?;
    }
    Ok(())
}

#[test]
fn sizes(rt: HostRuntime) -> Result<(), Fail> {
    for (claim, digits, counters, refusal) in [
        (claim(2, 17, 17, 1), "9", 4, slip(5, 0)),
        (claim(16, 5, 5, 1), "00000", 0, slip(5, 0)),
        (claim(16, 17, 17, u32::MAX), "", 0, slip(5, 0)),
        (claim(2, 1, 1, 0), "", 2, slip(5, 0)),
        (claim(2, 1, 1, 65537), "9", 3, slip(5, 0)),
        (claim(2, 1, 17, u32::MAX), "9", 2, slip(5, 0)),
    ] {
        refused(&rt, claim, digits, counters, refusal)?;
    }
    Ok(())
}

#[test]
fn memory(rt: HostRuntime) -> Result<(), Fail> {
    for (claim, digits, counters, refusal) in [
        (claim(2, 2, 2, 2), "001", 4, slip(6, 0)),
        (claim(2, 2, 2, 2), "00110", 4, slip(6, 0)),
        (claim(2, 2, 2, 2), "0011", 3, slip(6, 0)),
        (claim(2, 2, 2, 2), "0011", 5, slip(6, 0)),
        (claim(2, 2, 2, 2), "0091", 0, slip(6, 0)),
        (claim(2, 1, 17, 65536), "2", 2, slip(6, 0)),
    ] {
        refused(&rt, claim, digits, counters, refusal)?;
    }
    Ok(())
}

#[test]
fn levels(rt: HostRuntime) -> Result<(), Fail> {
    for (claim, digits, counters, refusal) in [
        (claim(2, 2, 2, 2), "2000", 4, slip(9, 0)),
        (claim(2, 2, 2, 2), "0002", 4, slip(9, 3)),
        (claim(3, 1, 2, 2), "0131", 3, slip(9, 2)),
        (claim(3, 1, 2, 2), "0953", 3, slip(9, 1)),
    ] {
        refused(&rt, claim, digits, counters, refusal)?;
    }
    Ok(())
}
