// Reads a table line by line. Rests on the words of a line.
use crate::fault::{Refusal, Unanswered};
use crate::table::Table;
use line_text::number::numeral;
use line_text::words::Words;
use std::alloc::Global;
use std::io::BufRead;
use strength::claim::Claim;

// The table that a text writes.
pub fn read<B: BufRead + Drop>(heap: Global, text: B) -> Result<Table, Unanswered> {
    let mut lines = text.split(heap, b'\n');
    let first = lines.next().unwrap_or(Ok(Vec::new(heap)))?;
    let claim = claimed(&first).ok_or(Refusal::FirstLine)?;
    let mut table = Table::new(heap, claim);
    for (i, line) in lines.enumerate() {
        read_line(&mut table, &line?, i.saturating_add(2))?;
    }
    Ok(table)
}

// What the first line claims of a table of no runs, if it has three numbers.
fn claimed(line: &[u8]) -> Option<Claim> {
    let mut words = Words::of(line);
    let levels = words.number()?;
    let strength = words.number()?;
    let factors = words.number()?;
    words.end()?;
    Some(Claim {
        levels,
        strength,
        factors,
        runs: 0,
    })
}

// Adds the run of a later line, if it is neither empty nor a comment.
fn read_line(table: &mut Table, line: &[u8], number: usize) -> Result<(), Unanswered> {
    if let None | Some([b'#', ..]) = Words::of(line).next() {
        return Ok(());
    }
    table.add_run();
    for word in Words::of(line) {
        let level = numeral(word).ok_or(Refusal::Line(number))?;
        table.add_level(level)?;
    }
    Ok(())
}
