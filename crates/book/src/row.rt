// A row of calls on one book, over words that are lent to it.
ghost use Rattle.std.specs.Prelude.{◌≡◌, if◌then◌else◌, nat_le};
ghost use Rattle.book.specs.declared.row.RowFault.TheVariants.{Memory, Opening};
ghost use Rattle.book.specs.Plain.{Plain};
ghost use Rattle.book.specs.Laws.{OneStep};
ghost use Rattle.book.specs.Shown.{RowEnds};
ghost use Rattle.book.specs.Turns.{Holds, Turned, Acts};

use crate::calls::{Answer, Call};
use crate::fault::BookFault;
use crate::ledger::fits;
use crate::shape::{Book, Finished};
use plan::shape::Plan;
use refusal::{Fault, Slip};
use std::alloc::{AllocError, Global};

// The book after a call: still in use, or finished.
// Kept: neither state is an error, so Result<Finished, Book> is no plainer.
#[derive(Drop)]
pub enum Next {
    Going(Book),
    Over(Finished),
}

// What a row of calls gave.
#[derive(Drop)]
pub struct Ran {
    pub answers: Vec<Result<Answer, Slip>>,
    pub next: Next,
}

// Why a row of calls was not begun.
#[derive(Clone, Copy, Debug, PartialEq, Eq)]
pub enum RowFault {
    // no memory for the answers
    Memory,
    // the book was not opened
    Opening(BookFault),
}

// Kept: written by hand, as clauses read `from_gives`, which the derive of the crate thiserror does not give.
impl From<BookFault> for RowFault {
    ghost from_gives = { λ f r. r ≡ Opening f };

    fn from(fault: BookFault) -> RowFault {
        RowFault::Opening(fault)
    }
}

impl From<AllocError> for RowFault {
    ghost from_gives = { λ _ r. r ≡ Memory };

    fn from(_e: AllocError) -> RowFault {
        RowFault::Memory
    }
}

// Opens a book over the words and performs the calls, until they end or a finish is accepted. A call that
// names N is handed the words, any other call memory of another length.
#[tactic(auto, using(crate::proofs::Steps::one_step))]
pub fn run(heap: Global, plan: Plan, words: &mut [u16], calls: &[Call]) -> Result<Ran, RowFault>
    ensures row { RowEnds plan calls.now words.old words.new result }
    ensures once { OneStep }
{
    fits(plan, words)?;
    let mut answers = Vec::with_capacity(heap, calls.len())?;
    let mut book = Book::open(plan, words)?;
    for call in calls {
        let (answer, next) = perform(book, words, *call);
        answers.push_reserved(answer);
        match next {
            Next::Going(back) => book = back,
            Next::Over(end) => return Ok(Ran {
                answers,
                next: Next::Over(end),
            }),
        }
    }
    Ok(Ran {
        answers,
        next: Next::Going(book),
    })
}

// One call, which is handed as many of the words as it names, or none where there are not so many.
fn perform(book: Book, words: &mut [u16], call: Call) -> (Result<Answer, Slip>, Next)
    ensures { (p : Plain) → Holds book words.old p → Turned book.plan p call result.0 result.1 words.new }
{
    let len = part(call.handed(), words.len());
    act(book, &mut words[0..len], call)
}

// How many of `all` words are handed in where so many are named: so many, or none where there are fewer.
pub fn part(named: usize, all: usize) -> usize
    ensures { result ≡ (if nat_le named all then named else 0) }
{
    if named <= all { named } else { 0 }
}

// One call on the words that it is handed.
fn act(mut book: Book, words: &mut [u16], call: Call) -> (Result<Answer, Slip>, Next)
    ensures { Acts book words.old call result.0 result.1 words.new }
{
    let answer = match call {
        Call::Take { .. } => book.take(words).map(Answer::Took),
        Call::Mark { label, grade, .. } => book.mark(words, label, grade).map(|_| Answer::Done),
        Call::Spoil { label, .. } => book.spoil(words, label).map(|_| Answer::Done),
        Call::Strike { label, .. } => book.strike(words, label).map(|_| Answer::Done),
        Call::Finish { .. } => {
            return match book.finish(words) {
                Ok(end) => (Ok(Answer::Finished), Next::Over(end)),
                Err((fault, back)) => (Err(fault.slip()), Next::Going(back)),
            };
        }
    };
    (answer.map_err(|fault| fault.slip()), Next::Going(book))
}

#[cfg(test)]
mod tests {
    use super::*;
    use refusal::Layer;
    use std::process::Abort;
    use std::test::Fail;

    // A refusal of the book's layer.
    fn refused(number: u8, place: usize) -> Result<Answer, Slip> {
        Err(Slip {
            number,
            layer: Layer::Book,
            place,
        })
    }

    #[test]
    fn a_row_until_its_finish(rt: HostRuntime) -> Result<(), Fail> {
        let plan = Plan::new(2, 1, 1, 7)?;
        let calls = [
            Call::Take { len: 2 },
            Call::Take { len: 3 },
            Call::Finish { len: 2 },
            Call::Mark {
                len: 2,
                label: 0,
                grade: 1000,
            },
            Call::Take { len: 2 },
            Call::Take { len: 2 },
            Call::Mark {
                len: 2,
                label: 2,
                grade: 1001,
            },
            Call::Mark {
                len: 2,
                label: 1,
                grade: 1001,
            },
            Call::Spoil { len: 2, label: 0 },
            Call::Mark {
                len: 2,
                label: 1,
                grade: 0,
            },
            Call::Take { len: 2 },
            Call::Strike { len: 1, label: 0 },
            Call::Finish { len: 2 },
            Call::Take { len: 2 },
        ];
        let expected = [
            Ok(Answer::Took(0)),
            refused(6, 0),
            refused(16, 0),
            Ok(Answer::Done),
            Ok(Answer::Took(1)),
            refused(14, 0),
            refused(7, 2),
            refused(10, 0),
            refused(13, 0),
            Ok(Answer::Done),
            refused(15, 0),
            refused(6, 0),
            Ok(Answer::Finished),
        ];
        let mut words = [9u16; 2];
        let ran = run(rt.alloc(), plan, &mut words, &calls)?;
        assert_eq!(rt; ran.answers.as_slice(), expected.as_slice());
        assert_eq!(rt; words, [1002, 2]);
        Ok(())
    }

    // Performs the calls, of which none finishes the book, and holds each answer to the one beside it.
    fn play(
        rt: &impl Abort,
        mut book: Book,
        words: &mut [u16],
        calls: &[(Call, Result<Answer, Slip>)],
    ) -> Result<(), Fail> {
        for (call, right) in calls {
            let (answer, next) = perform(book, words, *call);
            assert_eq!(rt; answer, *right);
            match next {
                Next::Going(back) => book = back,
                Next::Over(_) => return Err(Fail::new("finished")),
            }
        }
        Ok(())
    }

    #[test]
    fn calls_on_torn_words(rt: HostRuntime) -> Result<(), Fail> {
        let plan = Plan::new(2, 2, 2, 7)?;
        let mut words = [9u16; 4];
        let book = Book::open(plan, &mut words)?;
        words = [1, 1002, 1003, 65535];
        let calls = [
            (Call::Take { len: 4 }, refused(17, 2)),
            (
                Call::Mark {
                    len: 4,
                    label: 3,
                    grade: 5,
                },
                refused(17, 3),
            ),
            (Call::Strike { len: 4, label: 1 }, Ok(Answer::Done)),
            (Call::Finish { len: 4 }, refused(16, 0)),
            (Call::Take { len: 4 }, Ok(Answer::Took(1))),
            (
                Call::Mark {
                    len: 4,
                    label: 0,
                    grade: 7,
                },
                Ok(Answer::Done),
            ),
            (
                Call::Mark {
                    len: 4,
                    label: 1,
                    grade: 8,
                },
                Ok(Answer::Done),
            ),
            (Call::Finish { len: 4 }, refused(17, 2)),
            (Call::Finish { len: 5 }, refused(6, 0)),
        ];
        play(&rt, book, &mut words, &calls)?;
        assert_eq!(rt; words, [9, 10, 1003, 65535]);
        Ok(())
    }
}
