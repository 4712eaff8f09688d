// Why there is no answer. Rests on the checker's faults.
use refusal::Fault;
use std::alloc::AllocError;
use std::{fmt, io};
use strength::fault::CheckerFault;

// What is printed in place of an answer.
#[derive(Clone, Copy, Debug, PartialEq, Eq)]
pub enum Refusal {
    // the first line is not three numbers
    FirstLine,
    // the line of this number has a word that is no number
    Line(usize),
    // the checker takes no such table
    Checker(CheckerFault),
}

impl fmt::Display for Refusal {
    fn fmt<W: fmt::Write>(&self, f: &mut fmt::Formatter<W>) -> fmt::Result {
        match *self {
            Refusal::FirstLine => f.write_str("line 1: expected levels, strength and factors"),
            Refusal::Line(number) => write!(f, "line {number}: expected levels"),
            Refusal::Checker(fault) => {
                let slip = fault.slip();
                let number = slip.number;
                let place = slip.place;
                write!(f, "refused {number} by checker at {place}: ")?;
                f.write_str(match fault {
                    CheckerFault::Levels => "no such number of levels",
                    CheckerFault::Factors => "no such number of factors",
                    CheckerFault::Strength => "the strength is 0, or above the factors",
                    CheckerFault::Size => "too many combinations, or no or too many runs",
                    CheckerFault::Memory => {
                        "the runs do not all have as many levels as there are factors"
                    }
                    CheckerFault::Cell(_) => "no such level",
                })
            }
        }
    }
}

// Why there is no answer.
#[derive(Drop)]
pub enum Unanswered {
    Refused(Refusal),
    // the input failed, or memory did
    Failed(anyhow::Error),
}

impl From<Refusal> for Unanswered {
    fn from(refusal: Refusal) -> Unanswered {
        Unanswered::Refused(refusal)
    }
}

impl From<CheckerFault> for Unanswered {
    fn from(fault: CheckerFault) -> Unanswered {
        Unanswered::Refused(Refusal::Checker(fault))
    }
}

impl From<io::Error> for Unanswered {
    fn from(error: io::Error) -> Unanswered {
        Unanswered::Failed(error.into())
    }
}

impl From<AllocError> for Unanswered {
    fn from(error: AllocError) -> Unanswered {
        Unanswered::Failed(error.into())
    }
}
