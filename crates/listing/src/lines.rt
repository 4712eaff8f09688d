// A label's line, appended to a string. An error is want of memory.
ghost use Rattle.listing_text.specs.Appends.{Appends};
ghost use Rattle.listing.specs.Lines.{row_text};

use listing_text::lines::{push_end, push_label, push_setting};
use std::alloc::AllocError;
use strip::cell::Cell;

// Appends the line of a label that has these cells.
pub fn push_line(out: &mut String, label: u32, cells: &[Cell]) -> Result<(), AllocError>
    ensures text { Appends result out.old (row_text label cells.now) out.new }
{
    push_label(out, label)?;
    for cell in cells {
        push_setting(out, cell.level, cell.fine)?;
    }
    push_end(out)
}
