// A table of levels with what it is claimed to be, filled run after run. Rests on the checker's claim.
use std::alloc::{AllocError, Global};
use strength::claim::Claim;

// One cell more than any table that the checker takes, of 65,536 runs and 17 factors. No more are kept.
const MOST_CELLS: usize = 65536 * 17 + 1;

#[derive(Drop)]
pub struct Table {
    pub claim: Claim,
    pub cells: Vec<u8>,
}

impl Table {
    // The table of no runs that is claimed to be this.
    pub fn new(heap: Global, claim: Claim) -> Table {
        Table {
            claim,
            cells: Vec::new(heap),
        }
    }

    // Begins the next run.
    pub fn add_run(&mut self) {
        self.claim.runs = self.claim.runs.saturating_add(1);
    }

    // Adds a level to the run, as a byte: no level is as high as 255.
    pub fn add_level(&mut self, level: u32) -> Result<(), AllocError> {
        if self.cells.len() < MOST_CELLS {
            self.cells.push(u8::try_from(level).unwrap_or(u8::MAX))?;
        }
        Ok(())
    }
}
