// The words in which calls, questions, answers and refusals are printed. Rests on what each line is told.
use crate::command::Bad;
use crate::told::{Denied, Row, Told};
use book::calls::Call;
use listing_text::request::Request;
use refusal::Slip;
use std::fmt;
use strip::cell::Cell;
use strip::wish::Wish;
use trial::question::Question;

// The reason that a refusal's number stands for.
// Kept: by its number, which is what the refusal table's format has.
#[derive(Clone, Copy)]
pub struct Reason(pub u8);

impl fmt::Display for Reason {
    fn fmt<W: fmt::Write>(&self, f: &mut fmt::Formatter<W>) -> fmt::Result {
        f.write_str(match self.0 {
            1 => "no arithmetic of this count",
            2 => "the factors are none, or more than the levels",
            3 => "the strength is 0, or above the factors",
            4 => "no arithmetic of so many levels divides",
            5 => "more than 65536 labels",
            6 => "the words handed in are not as many as the labels",
            7 => "no such label",
            8 => "no such factor",
            9 => "no such level or fine setting",
            10 => "the grade is above 1000",
            11 => "the wishes are not as many as the strength",
            12 => "a factor is wished for again",
            13 => "the label does not stand as the call needs it",
            14 => "no label waits, and some label is out",
            15 => "strip done",
            16 => "some label is not graded",
            17 => "a torn word",
            18 => "the first line is malformed",
            _ => "no reason has this number",
        })
    }
}

#[derive(Clone, Copy)]
pub struct Refusal(pub Slip);

impl fmt::Display for Refusal {
    fn fmt<W: fmt::Write>(&self, f: &mut fmt::Formatter<W>) -> fmt::Result {
        let Slip {
            number,
            layer,
            place,
        } = self.0;
        let reason = Reason(number);
        write!(f, "refused {number} by {layer} at {place}: {reason}")
    }
}

// The line that repeats the strip.
#[derive(Clone, Copy)]
pub struct Header(pub Request);

impl fmt::Display for Header {
    fn fmt<W: fmt::Write>(&self, f: &mut fmt::Formatter<W>) -> fmt::Result {
        let Request {
            levels,
            strength,
            factors,
            seed,
            shuffler,
        } = self.0;
        write!(f, "trial {levels} {strength} {factors} {seed} {shuffler}")
    }
}

impl fmt::Display for Bad {
    fn fmt<W: fmt::Write>(&self, f: &mut fmt::Formatter<W>) -> fmt::Result {
        match self {
            Bad::NoCommand => f.write_str("no such command"),
            Bad::Form(command) => write!(f, "expected {command}"),
        }
    }
}

// How many words a line hands in, where it says so.
#[derive(Clone, Copy)]
pub struct With(pub Option<u32>);

impl fmt::Display for With {
    fn fmt<W: fmt::Write>(&self, f: &mut fmt::Formatter<W>) -> fmt::Result {
        match self.0 {
            None => Ok(()),
            Some(words) => write!(f, " with {words}"),
        }
    }
}

// A call as its line has it, up to the memory.
#[derive(Clone, Copy)]
pub struct CallText(pub Call);

impl fmt::Display for CallText {
    fn fmt<W: fmt::Write>(&self, f: &mut fmt::Formatter<W>) -> fmt::Result {
        match self.0 {
            Call::Take { .. } => f.write_str("take"),
            Call::Mark { label, grade, .. } => write!(f, "mark {label} {grade}"),
            Call::Spoil { label, .. } => write!(f, "spoil {label}"),
            Call::Strike { label, .. } => write!(f, "strike {label}"),
            Call::Finish { .. } => f.write_str("finish"),
        }
    }
}

// A question as its line has it, up to the memory.
#[derive(Clone, Copy)]
pub struct QuestionText<'a>(pub &'a Question);

impl fmt::Display for QuestionText<'_> {
    fn fmt<W: fmt::Write>(&self, f: &mut fmt::Formatter<W>) -> fmt::Result {
        match self.0 {
            Question::Find(wishes) => {
                f.write_str("find")?;
                for Wish { factor, level } in wishes.iter() {
                    write!(f, " {factor}/{level}")?;
                }
                Ok(())
            }
            Question::Locate { factor, fine } => write!(f, "locate {factor}/{fine}"),
            Question::Effect { factor, a, b, .. } => write!(f, "effect {factor} {a} {b}"),
        }
    }
}

impl fmt::Display for Row<'_> {
    fn fmt<W: fmt::Write>(&self, f: &mut fmt::Formatter<W>) -> fmt::Result {
        let label = self.label;
        write!(f, "label {label},")?;
        for Cell { level, fine } in self.cells {
            write!(f, " {level}/{fine}")?;
        }
        Ok(())
    }
}

impl fmt::Display for Told<'_> {
    fn fmt<W: fmt::Write>(&self, f: &mut fmt::Formatter<W>) -> fmt::Result {
        match self {
            Told::Taken(row) => write!(f, "{row}"),
            Told::Graded => f.write_str("graded"),
            Told::Waiting => f.write_str("waiting"),
            Told::Finished => f.write_str("finished"),
            Told::Label(label) => write!(f, "label {label}"),
            Told::Effect(value) => write!(f, "{value}"),
        }
    }
}

impl fmt::Display for Denied {
    fn fmt<W: fmt::Write>(&self, f: &mut fmt::Formatter<W>) -> fmt::Result {
        match self {
            Denied::Refused(slip) => write!(f, "{}", Refusal(*slip)),
            Denied::AfterFinish => f.write_str("turned away: the book is finished"),
            Denied::BeforeFinish => f.write_str("turned away: the book is not finished"),
        }
    }
}
