// A whole trial: a row of calls on one book, and then questions about its strip and its grades.
ghost use Rattle.std.specs.Prelude.{◌≡◌, Bool, length};
ghost use Rattle.trial.specs.declared.conduct.TrialFault.TheVariants.{Memory, Strip, Book};
ghost use Rattle.book.specs.Plain.{Plain};
ghost use Rattle.book.specs.Laws.{Sized};
ghost use Rattle.book.specs.Shown.{Shows, Leaves};
ghost use Rattle.trial.specs.Faults.{row_fault};
ghost use Rattle.trial.specs.Replies.{Replied};
ghost use Rattle.trial.specs.Trials.{TrialEnds};

use crate::finished::effect;
use crate::question::{Question, Reply};
use book::calls::Call;
use book::fault::BookFault;
use book::ledger::fits;
use book::row::{Next, Ran, RowFault, part, run};
use levels::arithmetic::Dividing;
use shuffle::Shuffler;
use std::alloc::{AllocError, Global};
use strip::cell::Strip;
use strip::fault::StripFault;

// What a trial gave: the answers to its calls with the book that they left, and the replies to its questions.
#[derive(Drop)]
pub struct Outcome {
    pub ran: Ran,
    pub replies: Vec<Reply>,
}

// Why a trial was not begun.
#[derive(Clone, Copy, Debug, PartialEq, Eq)]
pub enum TrialFault {
    // no memory for the answers or the replies
    Memory,
    // the arithmetic's count is not the plan's
    Strip(StripFault),
    // the book was not opened
    Book(BookFault),
}

// Kept: written by hand, as clauses read `from_gives`, which the derive of the crate thiserror does not give.
impl From<StripFault> for TrialFault {
    ghost from_gives = { λ f r. r ≡ Strip f };

    fn from(fault: StripFault) -> TrialFault {
        TrialFault::Strip(fault)
    }
}

impl From<BookFault> for TrialFault {
    ghost from_gives = { λ f r. r ≡ Book f };

    fn from(fault: BookFault) -> TrialFault {
        TrialFault::Book(fault)
    }
}

impl From<RowFault> for TrialFault {
    ghost from_gives = { λ f r. r ≡ row_fault f };

    fn from(fault: RowFault) -> TrialFault {
        match fault {
            RowFault::Memory => TrialFault::Memory,
            RowFault::Opening(inner) => TrialFault::Book(inner),
        }
    }
}

impl From<AllocError> for TrialFault {
    ghost from_gives = { λ _ r. r ≡ Memory };

    fn from(_e: AllocError) -> TrialFault {
        TrialFault::Memory
    }
}

// Opens a book over the words, performs the calls until they end or a finish is accepted, and then replies to the questions.
// A call or an effect that names N is handed the words, any other memory of another length.
pub fn conduct<R: Dividing, S: Shuffler>(
    heap: Global,
    strip: &Strip<R, S>,
    words: &mut [u16],
    calls: &[Call],
    questions: &[Question],
) -> Result<Outcome, TrialFault>
    ensures { TrialEnds strip.now.plan (R.Ring.ring strip.now.ring) (S.Shuffler.ways strip.now.shuffler) calls.now questions.now words.old words.new result }
{
    strip.orthogonal()?;
    fits(strip.plan, words)?;
    let mut replies = Vec::with_capacity(heap, questions.len())?;
    let ran = run(heap, strip.plan, words, calls)?;
    for question in questions {
        replies.push_reserved(reply(strip, &ran.next, words, question));
    }
    Ok(Outcome { ran, replies })
}

// The reply to a question, where a row of calls left this book and these words.
fn reply<R: Dividing, S: Shuffler>(
    strip: &Strip<R, S>,
    next: &Next,
    words: &[u16],
    question: &Question,
) -> Reply
    ensures { (finished : Bool) (p : Plain) → Sized strip.now.plan.labels p → Shows words.now p → Leaves strip.now.plan finished next.now p → Replied strip.now.plan (R.Ring.ring strip.now.ring) (S.Shuffler.ways strip.now.shuffler) finished p question.now result }
{
    match question {
        Question::Find(wishes) => Reply::Label(strip.find(wishes)),
        Question::Locate { factor, fine } => Reply::Label(strip.locate(*factor, *fine)),
        Question::Effect { len, factor, a, b } => match next {
            Next::Going(_) => Reply::Unfinished,
            Next::Over(book) => {
                let part = &words[0..part(*len, words.len())];
                Reply::Effect(effect(book, &strip.ring, &strip.shuffler, part, *factor, *a, *b))
            }
        },
    }
}
