// The calls of a book. Each is handed the words, and a refusal changes neither them nor the book.
ghost use Rattle.std.specs.Prelude.{◌≡◌, length, IfErr};
ghost use Rattle.refusal.specs.Table.{Answers};
ghost use Rattle.book.specs.declared.standing.Standing.TheVariants.{Waiting, Graded};
ghost use Rattle.book.specs.declared.calls.Call.TheVariants.{Take, Mark, Spoil, Strike, Finish};
ghost use Rattle.book.specs.Standings.{standings};
ghost use Rattle.book.specs.Faults.{book_slip};
ghost use Rattle.book.specs.Search.{FirstStop};
ghost use Rattle.book.specs.Deeds.{asked, made};
ghost use Rattle.book.specs.Conditions.{opening, finishing};
ghost use Rattle.book.specs.Books.{rows_at, Opened, cleared, wrote, took, cursor_at};
ghost use Rattle.book.specs.Laws.{StopLaw};

use crate::deed::Deed;
use crate::fault::BookFault;
use crate::search::seek;
use crate::shape::{Book, Finished};
use crate::standing::Standing;
use plan::shape::Plan;

// Whether the memory handed in is N words.
pub fn fits(plan: Plan, words: &[u16]) -> Result<(), BookFault>
    ensures { Answers book_slip (opening plan.labels (length words.now)) (λ _. Unit {0}) result }
{
    if words.len() == plan.labels as usize {
        Ok(())
    } else {
        Err(BookFault::Words)
    }
}

// Whether the memory handed in is N words that are all graded.
pub fn graded(plan: Plan, words: &[u16]) -> Result<(), BookFault>
    ensures { Answers book_slip (finishing plan.labels (length words.now) (standings words.now)) (λ _. Unit {0}) result }
{
    fits(plan, words)?;
    if words.iter().any(|word| Standing::read(*word).unready()) {
        return Err(BookFault::Ungraded);
    }
    match words
        .iter()
        .position(|word| Standing::read(*word).is_torn())
    {
        Some(at) => Err(BookFault::Torn(at as u32)),
        None => Ok(()),
    }
}

// Kept: by a rule of the project the words are lent to each call, so no struct holds them beside the book.
impl Book {
    // Opens a book: every label waits, and the cursor is 0.
    pub fn open(plan: Plan, words: &mut [u16]) -> Result<Book, BookFault>
        ensures answer { Answers book_slip (opening plan.labels (length words.old)) (Opened plan) result }
        ensures words { words.new ≡ cleared result words.old }
    {
        fits(plan, words)?;
        words.fill(0);
        Ok(Book { plan, cursor: 0 })
    }

    // Hands out the first waiting label from the cursor upward, once round. The label is then out.
    #[tactic(auto, using(crate::proofs::Upward::stop_law))]
    pub fn take(&mut self, words: &mut [u16]) -> Result<u32, BookFault>
        ensures answer { Answers book_slip (rows_at self.old words.old (Take (length words.old))) (FirstStop self.old.cursor (standings words.old)) result }
        ensures words { words.new ≡ took result words.old }
        ensures cursor { self.new.cursor ≡ cursor_at result self.old }
        ensures plan { self.new.plan ≡ self.old.plan }
        ensures stop { StopLaw }
    {
        fits(self.plan, words)?;
        let Some(at) = seek(words, self.cursor as usize) else {
            return Err(if words.iter().any(|word| Standing::read(*word).is_out()) {
                BookFault::SomeOut
            } else {
                BookFault::Done
            });
        };
        let label = at as u32;
        if Standing::read(words[at]).is_torn() {
            return Err(BookFault::Torn(label));
        }
        words[at] = 1;
        self.cursor = if label + 1 < self.plan.labels {
            label + 1
        } else {
            0
        };
        Ok(label)
    }

    // Gives an out label its grade.
    pub fn mark(&self, words: &mut [u16], label: u32, grade: u32) -> Result<(), BookFault>
        ensures answer { Answers book_slip (rows_at self.now words.old (Mark (length words.old) label grade)) (λ _. Unit {0}) result }
        ensures words { words.new ≡ wrote result words.old label (Graded grade) }
    {
        self.change(words, label, Deed::Mark(grade))
    }

    // Sets an out label waiting.
    pub fn spoil(&self, words: &mut [u16], label: u32) -> Result<(), BookFault>
        ensures answer { Answers book_slip (rows_at self.now words.old (Spoil (length words.old) label)) (λ _. Unit {0}) result }
        ensures words { words.new ≡ wrote result words.old label Waiting }
    {
        self.change(words, label, Deed::Spoil)
    }

    // Sets a graded label waiting.
    pub fn strike(&self, words: &mut [u16], label: u32) -> Result<(), BookFault>
        ensures answer { Answers book_slip (rows_at self.now words.old (Strike (length words.old) label)) (λ _. Unit {0}) result }
        ensures words { words.new ≡ wrote result words.old label Waiting }
    {
        self.change(words, label, Deed::Strike)
    }

    // Uses up the book if every label is graded, and else hands the same book back.
    pub fn finish(self, words: &[u16]) -> Result<Finished, (BookFault, Book)>
        ensures answer { Answers (λ e. book_slip e.0) (rows_at self words.now (Finish (length words.now))) (λ done. done.plan ≡ self.plan) result }
        ensures same { IfErr result (λ e. e.1 ≡ self) }
    {
        match graded(self.plan, words) {
            Ok(()) => Ok(Finished { plan: self.plan }),
            Err(fault) => Err((fault, self)),
        }
    }

    // Does a deed to a label.
    fn change(&self, words: &mut [u16], label: u32, deed: Deed) -> Result<(), BookFault>
        ensures answer { Answers book_slip (rows_at self.now words.old (asked deed (length words.old) label)) (λ _. Unit {0}) result }
        ensures words { words.new ≡ wrote result words.old label (made deed) }
    {
        fits(self.plan, words)?;
        if label >= self.plan.labels {
            return Err(BookFault::Label(label));
        }
        if deed.is_high() {
            return Err(BookFault::Grade);
        }
        let at = label as usize;
        words[at] = deed.turns(Standing::read(words[at]), label)?;
        Ok(())
    }
}

impl Finished {
    // The plan of the book that was finished.
    pub fn plan(&self) -> Plan
        ensures { result ≡ self.now.plan }
    {
        self.plan
    }
}
