// What the tests share: a planned strip, both shufflers, a cell read from its row, and what a refusal tells.
use levels::arithmetic::Ring;
use plan::shape::Plan;
use refusal::{Fault, Layer, Slip};
use shuffle::Shuffler;
use shuffle::any::AnyShuffler;
use std::test::Fail;
use strip::cell::{Cell, Strip};

// Every shuffler.
pub(crate) const SHUFFLERS: [AnyShuffler; 2] = [AnyShuffler::Turn, AnyShuffler::Hash];

// Kept: the same in both crates of tests, which share no third.
// A strip of as many levels as the arithmetic counts.
pub(crate) fn planned<R: Ring + Copy, S: Shuffler + Copy>(
    ring: R,
    shuffler: S,
    strength: u32,
    factors: u32,
    seed: u32,
) -> Result<Strip<R, S>, Fail> {
    let plan = Plan::new(ring.count(), strength, factors, seed)?;
    Ok(Strip {
        plan,
        ring,
        shuffler,
    })
}

// What a call answers, or the slip of its refusal.
pub(crate) fn told<T: Drop, E: Fault + Drop>(res: Result<T, E>) -> Result<T, Slip> {
    res.map_err(|fault| fault.slip())
}

// The slip of a refusal by a layer.
pub(crate) fn slip(layer: Layer, number: u8, place: usize) -> Slip {
    Slip {
        number,
        layer,
        place,
    }
}

// A label's cell for a factor, read from its row.
pub(crate) fn cell<R: Ring, S: Shuffler>(
    strip: &Strip<R, S>,
    label: u32,
    factor: u32,
) -> Result<Cell, Fail> {
    // Kept: as many cells as any strip has factors, since the caller hands no heap.
    let mut row = [Cell { level: 0, fine: 0 }; 16];
    strip.rows(label, 1, &mut row, 0)?;
    Ok(*row.get(factor as usize).ok_or("no such factor")?)
}
