// Published arrays: what they are at strength 2, at strength 1, taken twice, and at strength 3, which none of them has.
use crate::common::{Table, cells, no, written, yes};
use std::alloc::Global;
use std::process::Abort;
use std::test::Fail;

#[derive(Clone, Copy)]
pub(crate) struct Published {
    pub(crate) levels: u32,
    pub(crate) factors: u32,
    pub(crate) runs: &'static str,
}

impl Published {
    pub(crate) fn table(&self, heap: Global) -> Result<Table<u8>, Fail> {
        written(heap, self.levels, self.factors, self.runs)
    }
}

pub(crate) const L4: Published = Published {
    levels: 2,
    factors: 3,
    runs: "000 011 101 110",
};

pub(crate) const L8: Published = Published {
    levels: 2,
    factors: 7,
    runs: "0000000 0001111 0110011 0111100 1010101 1011010 1100110 1101001",
};

pub(crate) const L9: Published = Published {
    levels: 3,
    factors: 4,
    runs: "0000 0111 0222 1012 1120 1201 2021 2102 2210",
};

// the one of five four-level columns
pub(crate) const L16: Published = Published {
    levels: 4,
    factors: 5,
    runs: "00000 01111 02222 03333 10123 11032 12301 13210 20231 21320 22013 23102 30312 31203 32130 33021",
};

// its seven three-level columns
pub(crate) const L18: Published = Published {
    levels: 3,
    factors: 7,
    runs: "0000000 0111111 0222222 1001122 1112200 1220011 2010212 2121020 2202101 \
           0022110 0100221 0211002 1012021 1120102 1201210 2021201 2102012 2210120",
};

// The index at strength 2 and at strength 1, and how many runs have level 0 at the first three columns.
fn stands(
    rt: &(impl Abort + AllocGlobal),
    array: Published,
    index: u32,
    single: u32,
    zeros: u32,
) -> Result<(), Fail> {
    let heap = rt.alloc();
    let mut table = array.table(heap)?;
    assert_eq!(rt; table.told(rt, 2)?, yes(index));
    assert_eq!(rt; table.told(rt, 1)?, yes(single));
    assert_eq!(rt; table.told(rt, 3)?, no(0b111, 0, zeros));
    table.cells.extend_from_slice(&cells(heap, array.runs)?)?;
    assert_eq!(rt; table.told(rt, 2)?, yes(index.saturating_mul(2)));
    Ok(())
}

#[test]
fn published_arrays(rt: HostRuntime) -> Result<(), Fail> {
    stands(&rt, L4, 1, 2, 1)?;
    stands(&rt, L8, 2, 4, 2)?;
    stands(&rt, L9, 1, 3, 1)?;
    stands(&rt, L16, 1, 4, 1)?;
    stands(&rt, L18, 2, 6, 1)
}
