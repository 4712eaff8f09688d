// Rows of cells, written into a part of the caller's table.
ghost use Rattle.std.specs.Prelude.{◌≡◌, ℕ, ◌+◌, ◌*◌, ◌<◌, ◌≤◌, length, OnErr};
ghost use Rattle.refusal.specs.Table.{Answers};
ghost use Rattle.strip.specs.Faults.{strip_slip};
ghost use Rattle.strip.specs.Rows.{Written, rows_rows};

use crate::cell::{Cell, Strip};
use crate::fault::StripFault;
use crate::labels::Labels;
use levels::arithmetic::Ring;
use shuffle::Shuffler;

impl<R: Ring, S: Shuffler> Strip<R, S> {
    // Writes the cells of `count` labels from `first` on, one row after the other, into the table from the cell `start` on.
    pub fn rows(
        &self,
        first: u32,
        count: u32,
        table: &mut [Cell],
        start: usize,
    ) -> Result<(), StripFault>
        ensures answer { Answers strip_slip (rows_rows self.now.plan (R.Ring.ring self.now.ring) first count start (length table.old)) (λ _. Written self.now.plan (R.Ring.ring self.now.ring) (S.Shuffler.ways self.now.shuffler) first count start table.old table.new) result }
        ensures same { OnErr result (table.new ≡ table.old) }
    {
        let labels = self.labels()?;
        let cells = count as usize * self.plan.factors as usize;
        if table.len() < start || table.len() - start < cells {
            return Err(StripFault::Room);
        }
        if self.plan.labels < first || self.plan.labels - first < count {
            return Err(StripFault::Labels);
        }
        labels.write_rows(first, count, &mut table[start..start + cells]);
        Ok(())
    }
}

impl<R: Ring, S: Shuffler> Labels<'_, R, S> {
    // Writes rows into memory that is as long as they are.
    fn write_rows(&self, first: u32, count: u32, part: &mut [Cell])
        requires placed { first + count ≤ self.now.plan.labels }
        requires sized { length part.old ≡ count * self.now.plan.factors }
        ensures { Written self.now.plan (R.Ring.ring self.now.ring.now) (S.Shuffler.ways self.now.shuffler.now) first count 0 part.old part.new }
    {
        let factors = self.plan.factors as usize;
        for k in 0..count {
            // Kept: a part named by its place, since of the items that chunks_exact_mut lends nothing is known once they are written.
            let at = k as usize * factors;
            self.write_row(first + k, &mut part[at..at + factors]);
        }
    }

    // Writes one label's row.
    fn write_row(&self, label: u32, row: &mut [Cell])
        requires placed { label < self.now.plan.labels }
        requires sized { length row.old ≡ self.now.plan.factors }
        ensures { Written self.now.plan (R.Ring.ring self.now.ring.now) (S.Shuffler.ways self.now.shuffler.now) label 1 0 row.old row.new }
    {
        let n = self.shuffler.out(self.plan.seed, self.plan.labels, label);
        for (factor, cell) in row.iter_mut().enumerate() {
            *cell = self.cell_at(n, factor as u32);
        }
    }
}
