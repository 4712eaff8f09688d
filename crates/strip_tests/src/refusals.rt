// Each refusal, also where several conditions hold at once, and what a call leaves as it was.
use crate::common::{cell, slip, told};
use levels::listed::Listed;
use plan::shape::Plan;
use refusal::Layer;
use shuffle::hash::Hash;
use std::alloc::Global;
use std::process::Abort;
use std::test::Fail;
use strip::cell::{Cell, Strip};
use strip::wish::Wish;

const LAST: u32 = 0xffffffff;

// How many cells the table has into which rows are written.
const ROOM: usize = 30;

// What the table has before a call: no cell of a strip has this level.
const BEFORE: Cell = Cell {
    level: 200,
    fine: 7,
};

// Nine labels of three factors, planned for three levels, by the arithmetic of so many.
fn nine(count: u32) -> Result<Strip<Listed, Hash>, Fail> {
    Ok(Strip {
        plan: Plan::new(3, 2, 3, 1)?,
        ring: Listed::new(count)?,
        shuffler: Hash,
    })
}

// What stands in the table after the rows of `count` labels from `first` on were written from `start` on.
fn written(
    heap: Global,
    strip: &Strip<Listed, Hash>,
    first: u32,
    count: u32,
    start: usize,
) -> Result<Vec<Cell>, Fail> {
    let mut table = vec![in heap; BEFORE; start]?;
    for label in first..first.saturating_add(count) {
        for factor in 0..3 {
            table.push(cell(strip, label, factor)?)?;
        }
    }
    table.resize(ROOM, BEFORE)?;
    Ok(table)
}

// Rows, which are answered so or refused by this number.
fn rows_answer(
    rt: &(impl Abort + AllocGlobal),
    strip: &Strip<Listed, Hash>,
    first: u32,
    count: u32,
    start: usize,
    expected: Result<(), u8>,
) -> Result<(), Fail> {
    let heap = rt.alloc();
    let mut table = [BEFORE; ROOM];
    let answer = told(strip.rows(first, count, &mut table, start));
    assert_eq!(rt;
        answer,
        expected.map_err(|number| slip(Layer::Strip, number, 0))
    );
    let left = match expected {
        Ok(()) => written(heap, strip, first, count, start)?,
        Err(_) => vec![in heap; BEFORE; ROOM]?,
    };
    assert_eq!(rt; table.as_slice(), left.as_slice());
    Ok(())
}

#[test]
fn rows(rt: HostRuntime) -> Result<(), Fail> {
    let strip = nine(3)?;
    for (first, count, start, expected) in [
        (0, 9, 0, Ok(())),
        (0, 9, 3, Ok(())),
        (4, 2, 10, Ok(())),
        (0, 0, 30, Ok(())),
        (9, 0, 0, Ok(())),
        (0, 9, 4, Err(6)),
        (0, 0, 31, Err(6)),
        (0, 1, usize::MAX, Err(6)),
        (9, LAST, 0, Err(6)),
        (10, 0, 31, Err(6)),
        (1, 9, 0, Err(7)),
        (0, 10, 0, Err(7)),
        (10, 0, 0, Err(7)),
        (LAST, 1, 27, Err(7)),
    ] {
        rows_answer(&rt, &strip, first, count, start, expected)?;
    }
    rows_answer(&rt, &nine(2)?, 0, 1, 0, Err(1))?;
    rows_answer(&rt, &nine(5)?, 10, 1, 31, Err(1))
}

fn wish(factor: u32, level: u32) -> Wish {
    Wish { factor, level }
}

// That find refuses these wishes so, and by its first row where the count is wrong.
fn find_refused(rt: &impl Abort, wishes: &[Wish], number: u8, place: usize) -> Result<(), Fail> {
    assert_eq!(rt;
        told(nine(3)?.find(wishes)),
        Err(slip(Layer::Strip, number, place))
    );
    assert_eq!(rt; told(nine(5)?.find(wishes)), Err(slip(Layer::Strip, 1, 0)));
    Ok(())
}

#[test]
fn find(rt: HostRuntime) -> Result<(), Fail> {
    find_refused(&rt, &[wish(0, 0), wish(3, 0)], 8, 1)?;
    find_refused(&rt, &[wish(LAST, LAST), wish(3, 3)], 8, 0)?;
    find_refused(&rt, &[wish(0, 3), wish(3, 0)], 8, 1)?;
    find_refused(&rt, &[wish(0, 3), wish(0, 0), wish(4, 0)], 8, 2)?;
    find_refused(&rt, &[wish(0, 0), wish(1, 3)], 9, 1)?;
    find_refused(&rt, &[wish(0, LAST), wish(0, 3)], 9, 0)?;
    find_refused(&rt, &[wish(0, 0), wish(0, 0), wish(0, 3)], 9, 2)?;
    find_refused(&rt, &[], 11, 0)?;
    find_refused(&rt, &[wish(0, 0)], 11, 0)?;
    find_refused(&rt, &[wish(0, 0), wish(1, 0), wish(2, 0)], 11, 0)?;
    find_refused(&rt, &[wish(0, 0), wish(0, 0), wish(0, 0)], 11, 0)?;
    find_refused(&rt, &[wish(2, 0), wish(2, 1)], 12, 1)?;
    find_refused(&rt, &[wish(1, 0), wish(1, 0)], 12, 1)
}

#[test]
fn locate(rt: HostRuntime) -> Result<(), Fail> {
    let right = nine(3)?;
    let wrong = nine(5)?;
    for (factor, fine, number) in [(3, 0, 8), (LAST, 9, 8), (2, 9, 9), (0, LAST, 9)] {
        assert_eq!(rt;
            told(right.locate(factor, fine)),
            Err(slip(Layer::Strip, number, 0))
        );
        assert_eq!(rt;
            told(wrong.locate(factor, fine)),
            Err(slip(Layer::Strip, 1, 0))
        );
    }
    assert_eq!(rt; told(wrong.locate(0, 0)), Err(slip(Layer::Strip, 1, 0)));
    Ok(())
}

#[test]
fn orthogonal(rt: HostRuntime) -> Result<(), Fail> {
    assert_eq!(rt; told(nine(5)?.orthogonal()), Err(slip(Layer::Strip, 1, 0)));
    Ok(())
}

#[test]
fn plans(rt: HostRuntime) -> Result<(), Fail> {
    assert_eq!(rt; Plan::new(16, 4, 16, LAST)?.labels, 65536);
    assert_eq!(rt; Plan::new(6, 1, 6, 0)?.labels, 6);
    for (levels, strength, factors, number) in [
        (1, 0, 0, 1),
        (17, 1, 1, 1),
        (3, 0, 0, 2),
        (3, 1, 4, 2),
        (6, 0, 6, 3),
        (3, 4, 3, 3),
        (6, 2, 6, 4),
        (15, 15, 15, 4),
        (16, 5, 16, 5),
    ] {
        let labels = told(Plan::new(levels, strength, factors, 1)).map(|plan| plan.labels);
        assert_eq!(rt; labels, Err(slip(Layer::Plan, number, 0)));
    }
    Ok(())
}
