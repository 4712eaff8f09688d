// The smallest and the largest tables: one column, as many columns as the strength, and 65,536 runs.
use crate::common::{Table, no, slip, written, yes};
use numbers::power;
use std::process::Abort;
use std::test::Fail;

// Every combination of levels once.
fn factorial(
    rt: &(impl Abort + AllocGlobal),
    levels: u32,
    factors: u32,
) -> Result<Table<u8>, Fail> {
    assert!(rt; levels > 0);
    let mut cells = Vec::new(rt.alloc());
    for run in 0..power(levels, factors).ok_or("too many runs")? {
        let mut rest = run;
        for _ in 0..factors {
            cells.push(u8::try_from(rest % levels)?)?;
            rest /= levels;
        }
    }
    Ok(Table {
        levels,
        factors,
        cells,
    })
}

#[test]
fn one_column(rt: HostRuntime) -> Result<(), Fail> {
    for (levels, digits, expected) in [
        (2, "10", yes(1)),
        (3, "210021", yes(2)),
        (3, "210022", no(0b1, 1, 1)),
        (2, "0", no(0b1, 0, 1)),
    ] {
        let table = written(rt.alloc(), levels, 1, digits)?;
        assert_eq!(rt; table.told(&rt, 1)?, expected);
    }
    Ok(())
}

#[test]
fn as_many_columns_as_the_strength(rt: HostRuntime) -> Result<(), Fail> {
    let table = factorial(&rt, 3, 4)?;
    for (strength, index) in [(4, 1), (3, 3), (1, 27)] {
        assert_eq!(rt; table.told(&rt, strength)?, yes(index));
    }
    Ok(())
}

#[test]
fn most_runs_of_one_column(rt: HostRuntime) -> Result<(), Fail> {
    let heap = rt.alloc();
    let mut table = Table {
        levels: 2,
        factors: 1,
        cells: (0..65536u32)
            .map(|run| u8::from(run % 2 == 1))
            .collect(heap)?,
    };
    assert_eq!(rt; table.told(&rt, 1)?, yes(32768));
    table.cells.push(0)?;
    assert_eq!(rt; table.told(&rt, 1)?, Err(slip(5, 0)));
    Ok(())
}

// The last run is 15 everywhere; with 14 in its last cell, the combination before comes twice.
#[test]
fn most_combinations(rt: HostRuntime) -> Result<(), Fail> {
    let mut table = factorial(&rt, 16, 4)?;
    assert_eq!(rt; table.told(&rt, 4)?, yes(1));
    assert_eq!(rt; table.cells.pop(), Some(15));
    table.cells.push(14)?;
    assert_eq!(rt; table.told(&rt, 4)?, no(0b1111, 65534, 2));
    Ok(())
}
