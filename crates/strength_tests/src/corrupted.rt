// Published arrays with cells changed: the first columns that fail, the lowest combination there, and its count.
use crate::common::{no, written, yes};
use crate::published::{L4, L8, L9, L16, L18, Published};
use refusal::Slip;
use std::process::Abort;
use std::test::Fail;
use strength::claim::Verdict;

// What is told at strength 2 and at strength 1 of an array with another level at a place.
fn changed(
    rt: &(impl Abort + AllocGlobal),
    array: Published,
    (place, level): (usize, u8),
    pairs: Result<Verdict, Slip>,
    single: Result<Verdict, Slip>,
) -> Result<(), Fail> {
    let mut table = array.table(rt.alloc())?;
    *table.cells.get_mut(place).ok_or("no such place")? = level;
    assert_eq!(rt; table.told(rt, 2)?, pairs);
    assert_eq!(rt; table.told(rt, 1)?, single);
    Ok(())
}

#[test]
fn one_cell(rt: HostRuntime) -> Result<(), Fail> {
    for (array, change, pairs, single) in [
        (L4, (11, 1), no(0b101, 2, 0), no(0b100, 0, 1)),
        (L4, (0, 1), no(0b11, 0, 0), no(0b1, 0, 1)),
        (L4, (4, 0), no(0b11, 0, 2), no(0b10, 0, 3)),
        (L8, (20, 0), no(0b1000001, 0, 3), no(0b1000000, 0, 5)),
        (L8, (3, 1), no(0b1001, 0, 1), no(0b1000, 0, 3)),
        (L9, (14, 2), no(0b101, 4, 0), no(0b100, 1, 2)),
        (L9, (18, 0), no(0b101, 3, 2), no(0b100, 0, 4)),
        (L9, (35, 1), no(0b1001, 6, 0), no(0b1000, 0, 2)),
        (L16, (79, 3), no(0b10001, 13, 0), no(0b10000, 1, 3)),
        (L16, (42, 1), no(0b101, 9, 2), no(0b100, 1, 5)),
        (L18, (66, 0), no(0b1001, 0, 3), no(0b1000, 0, 7)),
        (L18, (125, 2), no(0b1000001, 6, 1), no(0b1000000, 0, 5)),
    ] {
        changed(&rt, array, change, pairs, single)?;
    }
    Ok(())
}

// Each level of the last column still comes as often as before.
#[test]
fn two_cells_swapped(rt: HostRuntime) -> Result<(), Fail> {
    let table = written(
        rt.alloc(),
        3,
        4,
        "0001 0110 0222 1012 1120 1201 2021 2102 2210",
    )?;
    assert_eq!(rt; table.told(&rt, 1)?, yes(3));
    assert_eq!(rt; table.told(&rt, 2)?, no(0b1010, 0, 0));
    Ok(())
}

// An array twice, but for one cell: the combination comes once where others come twice.
#[test]
fn one_cell_of_two_arrays(rt: HostRuntime) -> Result<(), Fail> {
    let table = written(rt.alloc(), 2, 3, "000 011 101 110 000 011 101 111")?;
    assert_eq!(rt; table.told(&rt, 2)?, no(0b101, 2, 1));
    Ok(())
}
