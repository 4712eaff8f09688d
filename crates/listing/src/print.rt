// A listing is opened by its input, printed line by line, and made whole.
ghost use Rattle.std.specs.Prelude.{◌≡◌, ◌+◌, ◌≤◌, ◌++◌, length, take, Err, string_bytes, string_len, string_capacity, Option, MatchResult, ◌≢◌};
ghost use Rattle.refusal.specs.Table.{Answers};
ghost use Rattle.listing_text.specs.declared.request.Request.{Request};
ghost use Rattle.listing.specs.declared.fault.LineFault.TheVariants.{Memory};
ghost use Rattle.listing.specs.Faults.{listing_slip};
ghost use Rattle.listing.specs.Listings.{Parsed, listing_rows, ways_for, line_of, whole_of, Listed, RowPushed, Prints};
ghost use Rattle.shuffle.specs.Choice.{ways_of};
ghost use Rattle.levels.specs.Choice.{meaning};
ghost use Rattle.strip.specs.Rows.{rows_rows};
ghost use Rattle.listing.specs.Lines.{cells_of};

use crate::fault::{LineFault, ListingFault};
use crate::lines::push_line;
use crate::listing::Listing;
use levels::choice::AnyRing;
use listing_text::lines::push_refused;
use listing_text::request::Request;
use plan::shape::Plan;
use refusal::Fault;
use shuffle::any::AnyShuffler;
use std::alloc::Global;
use strip::cell::{Cell, Strip};

// Kept: a function, as a `From` would say that every number names a shuffler.
// The shuffler that a number names: 0 the turn, and else the hash.
fn shuffler_named(number: u32) -> AnyShuffler
    ensures { ways_of result ≡ ways_for number }
{
    match number {
        0 => AnyShuffler::Turn,
        _ => AnyShuffler::Hash,
    }
}

impl Listing {
    // The listing that the input's first line asks for.
    pub fn open(input: &[u8]) -> Result<Listing, ListingFault>
        ensures { (q : Option Request) × Parsed input.now q × Answers listing_slip (listing_rows q) (Listed q) result }
    {
        let request = Request::read(input).ok_or(ListingFault::Malformed)?;
        let ring = AnyRing::of(request.levels)?;
        let plan = Plan::new(
            request.levels,
            request.strength,
            request.factors,
            request.seed,
        )?;
        let shuffler = shuffler_named(request.shuffler);
        Ok(Listing {
            request,
            strip: Strip {
                plan,
                ring,
                shuffler,
            },
        })
    }

    // Appends the line of a label.
    pub fn push_row(&self, out: &mut String, label: u32) -> Result<(), LineFault>
        ensures text { RowPushed self.now label (string_bytes out.old) (string_bytes out.new) result }
        ensures room { string_len out.old + length (line_of self.now label) ≤ string_capacity out.old → result ≢ Err Memory }
    {
        // Kept: an array of the most cells, since a Vec could want memory where the string has room, and an ArrayVec would first be filled.
        let mut cells = [Cell { level: 0, fine: 0 }; 16];
        self.write_cells(label, &mut cells)?;
        push_line(out, label, &cells[0..self.strip.plan.factors as usize])?;
        Ok(())
    }

    // Writes a label's cells, as many as there are factors.
    fn write_cells(&self, label: u32, cells: &mut [Cell]) -> Result<(), ListingFault>
        requires { length cells.old ≡ 16 }
        ensures { Answers listing_slip (rows_rows self.now.strip.plan (meaning self.now.strip.ring) label 1 0 16) (λ _. take self.now.strip.plan.factors cells.new ≡ cells_of self.now.strip.plan (meaning self.now.strip.ring) (ways_of self.now.strip.shuffler) label self.now.strip.plan.factors) result }
    {
        self.strip.rows(label, 1, cells, 0)?;
        Ok(())
    }

    // Appends the whole listing, line by line.
    fn push_all(&self, out: &mut String) -> Result<(), LineFault>
        requires { (meaning self.now.strip.ring).count ≡ self.now.strip.plan.levels }
        ensures { MatchResult result (λ _. string_bytes out.new ≡ string_bytes out.old ++ whole_of self.now self.now.strip.plan.labels) (λ e. e ≡ Memory) }
    {
        self.request.push_header(out)?;
        for label in 0..self.strip.plan.labels {
            self.push_row(out, label)?;
        }
        Ok(())
    }
}

// All that is printed for an input. The only error is want of memory.
pub fn print(heap: Global, input: &[u8]) -> Result<String, LineFault>
    ensures { MatchResult result (λ t. Prints input.now (string_bytes t)) (λ e. e ≡ Memory) }
{
    let mut out = String::new(heap);
    match Listing::open(input) {
        Ok(listing) => listing.push_all(&mut out)?,
        Err(fault) => push_refused(&mut out, fault.slip().number)?,
    }
    Ok(out)
}
