// The whole table of a strip, written into the caller's memory.
ghost use Rattle.std.specs.Prelude.{◌≡◌, length, OnErr};
ghost use Rattle.refusal.specs.Table.{Answers};
ghost use Rattle.strip.specs.Faults.{strip_slip};
ghost use Rattle.strip.specs.Rows.{rows_rows};
ghost use Rattle.strip_array.specs.Tables.{Arrayed};

use levels::arithmetic::Dividing;
use shuffle::Shuffler;
use strip::cell::{Cell, Strip};
use strip::fault::StripFault;

// Writes the rows of all labels from the first cell on. They are an orthogonal array of index 1.
pub fn write_table<R: Dividing, S: Shuffler>(
    strip: &Strip<R, S>,
    table: &mut [Cell],
) -> Result<(), StripFault>
    ensures answer { Answers strip_slip (rows_rows strip.now.plan (R.Ring.ring strip.now.ring) 0 strip.now.plan.labels 0 (length table.old)) (λ _. Arrayed strip.now.plan (R.Ring.ring strip.now.ring) (S.Shuffler.ways strip.now.shuffler) table.old table.new) result }
    ensures same { OnErr result (table.new ≡ table.old) }
{
    strip.orthogonal()?;
    strip.rows(0, strip.plan.labels, table, 0)
}
