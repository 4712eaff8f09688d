// The strips that are timed, by listed residues and the hash: a large one, and one to be checked.
use anyhow::anyhow;
use levels::listed::Listed;
use plan::shape::Plan;
use shuffle::hash::Hash;
use std::alloc::{AllocError, Global};
use strip::cell::{Cell, Strip};

pub type Hashed = Strip<Listed, Hash>;

fn planned(levels: u32, strength: u32, factors: u32) -> anyhow::Result<Hashed> {
    let ring = Listed::new(levels).map_err(|_| anyhow!("the count is refused"))?;
    let plan = Plan::new(levels, strength, factors, 1).map_err(|_| anyhow!("the plan is refused"))?;
    Ok(Strip {
        plan,
        ring,
        shuffler: Hash,
    })
}

// 13 levels, strength 4 and 13 factors, so 28,561 labels.
pub(crate) fn plan_large() -> anyhow::Result<Hashed> {
    planned(13, 4, 13)
}

// 7 levels, strength 3 and 7 factors, so 343 labels.
pub(crate) fn plan_small() -> anyhow::Result<Hashed> {
    planned(7, 3, 7)
}

// A table with room for all rows.
pub(crate) fn unwritten(heap: Global, strip: &Hashed) -> Result<Vec<Cell>, AllocError> {
    let cells = (strip.plan.labels as usize).wrapping_mul(strip.plan.factors as usize);
    vec![in heap; Cell { level: 0, fine: 0 }; cells]
}

// Writes all rows.
pub(crate) fn fill(strip: &Hashed, table: &mut [Cell]) -> anyhow::Result<()> {
    strip
        .rows(0, strip.plan.labels, table, 0)
        .map_err(|_| anyhow!("the rows are refused"))
}

// A level followed by its fine setting.
fn word_of(cell: &Cell) -> u64 {
    u64::from(cell.level) * 65536 + u64::from(cell.fine)
}

// The sum over all cells of the index plus 1 times the level followed by the fine setting, modulo 2^32.
pub(crate) fn checksum(table: &[Cell]) -> u32 {
    let sum = table.iter().map(word_of).zip(1u64..).fold(
        0u64,
        |sum, (word, place)| sum.wrapping_add(word.wrapping_mul(place)),
    );
    (sum & 0xffffffff) as u32
}
