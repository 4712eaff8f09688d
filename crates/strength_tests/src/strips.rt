// Whole strips, checked as they are written: with an arithmetic that divides they are orthogonal arrays, with the clock of four not.
use crate::common::{Table, yes};
use levels::arithmetic::{Dividing, Ring};
use levels::binary::Binary;
use levels::clock::Clock;
use levels::listed::Listed;
use plan::shape::Plan;
use refusal::Slip;
use shuffle::Shuffler;
use shuffle::hash::Hash;
use shuffle::turn::Turn;
use std::alloc::Global;
use std::process::Abort;
use std::test::Fail;
use strength::claim::{Failure, Verdict};
use strip::cell::{Cell, Strip};
use strip_array::table::write_table;

// Kept: the same in both crates of tests, which share no third.
// A strip of as many levels as the arithmetic counts.
fn planned<R: Ring + Copy, S: Shuffler + Copy>(
    ring: R,
    shuffler: S,
    strength: u32,
    factors: u32,
    seed: u32,
) -> Result<Strip<R, S>, Fail> {
    let plan = Plan::new(ring.count(), strength, factors, seed)?;
    Ok(Strip {
        plan,
        ring,
        shuffler,
    })
}

// Room for all rows of a strip.
fn unwritten(heap: Global, plan: Plan) -> Result<Table<Cell>, Fail> {
    let cells = (plan.labels as usize).saturating_mul(plan.factors as usize);
    Ok(Table {
        levels: plan.levels,
        factors: plan.factors,
        cells: vec![in heap; Cell { level: 0, fine: 0 }; cells]?,
    })
}

// What is told of the rows of four levels, strength 2 and three factors.
fn rows_told<R: Ring + Copy, S: Shuffler + Copy>(
    rt: &(impl Abort + AllocGlobal),
    ring: R,
    shuffler: S,
) -> Result<Result<Verdict, Slip>, Fail> {
    let strip = planned(ring, shuffler, 2, 3, 1)?;
    let mut table = unwritten(rt.alloc(), strip.plan)?;
    strip.rows(0, strip.plan.labels, &mut table.cells, 0)?;
    table.told(rt, 2)
}

// Whether the factors 0 and 2 have their lowest levels twice or never.
fn is_uneven(told: Result<Verdict, Slip>) -> bool {
    matches!(
        told,
        Ok(Verdict::No(Failure {
            columns: 0b101,
            combination: 0,
            count: 0 | 2,
        }),)
    )
}

// Factor 2 is factor 0 plus twice something, and twice is 0 or 2: each pair of their levels comes twice or never.
#[test]
fn four_levels(rt: HostRuntime) -> Result<(), Fail> {
    assert!(rt; is_uneven(rows_told(&rt, Clock::new(4)?, Turn)?));
    assert!(rt; is_uneven(rows_told(&rt, Clock::new(4)?, Hash)?));
    assert_eq!(rt; rows_told(&rt, Binary::new(4)?, Turn)?, yes(1));
    assert_eq!(rt; rows_told(&rt, Binary::new(4)?, Hash)?, yes(1));
    Ok(())
}

// The whole table of a strip of strength 2 or more has index 1, and at a strength one less as many as there are levels.
fn whole<R: Dividing, S: Shuffler>(
    rt: &(impl Abort + AllocGlobal),
    strip: &Strip<R, S>,
) -> Result<(), Fail> {
    let plan = strip.plan;
    let mut table = unwritten(rt.alloc(), plan)?;
    write_table(strip, &mut table.cells)?;
    assert_eq!(rt; table.told(rt, plan.strength)?, yes(1));
    let lower = plan.strength.saturating_sub(1);
    assert_eq!(rt; table.told(rt, lower)?, yes(plan.levels));
    Ok(())
}

#[test]
fn written_tables(rt: HostRuntime) -> Result<(), Fail> {
    whole(&rt, &planned(Listed::new(3)?, Turn, 2, 3, 1)?)?;
    whole(&rt, &planned(Listed::new(7)?, Hash, 3, 7, 2026)?)?;
    whole(&rt, &planned(Binary::new(8)?, Hash, 2, 8, 0)?)
}
