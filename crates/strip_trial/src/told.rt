// What each line of a script is told, out of what the trial answered. Rests on the trial's answers and on the strip's rows.
use book::calls::{Answer, Call};
use levels::arithmetic::Dividing;
use refusal::{Fault, Slip};
use shuffle::any::AnyShuffler;
use strip::cell::{Cell, Strip};
use strip::fault::StripFault;
use trial::fault::EffectFault;
use trial::question::Reply;

// A label with its cells, one for each factor.
#[derive(Clone, Copy)]
pub struct Row<'a> {
    pub label: u32,
    pub cells: &'a [Cell],
}

#[derive(Clone, Copy)]
pub enum Told<'a> {
    Taken(Row<'a>),
    Graded,
    Waiting,
    Finished,
    Label(u32),
    Effect(i64),
}

// Why a line is told nothing of these: refused, or turned away.
#[derive(Clone, Copy)]
pub enum Denied {
    Refused(Slip),
    // a grading line after an accepted finish
    AfterFinish,
    // an effect before it
    BeforeFinish,
}

impl From<StripFault> for Denied {
    fn from(fault: StripFault) -> Denied {
        Denied::Refused(fault.slip())
    }
}

impl From<EffectFault> for Denied {
    fn from(fault: EffectFault) -> Denied {
        Denied::Refused(fault.slip())
    }
}

impl From<Slip> for Denied {
    fn from(slip: Slip) -> Denied {
        Denied::Refused(slip)
    }
}

impl<'a> Told<'a> {
    // What is told of a call, which has no answer where a finish was accepted before it. The row of a label that was
    // taken is written into the cells, which are as many as the factors.
    pub fn of_call<R: Dividing>(
        strip: &Strip<R, AnyShuffler>,
        call: Call,
        answer: Option<Result<Answer, Slip>>,
        cells: &'a mut [Cell],
    ) -> Result<Told<'a>, Denied> {
        match answer.ok_or(Denied::AfterFinish)?? {
            Answer::Took(label) => {
                strip.rows(label, 1, cells, 0)?;
                Ok(Told::Taken(Row { label, cells }))
            }
            Answer::Done => match call {
                Call::Mark { .. } => Ok(Told::Graded),
                _ => Ok(Told::Waiting),
            },
            Answer::Finished => Ok(Told::Finished),
        }
    }

    // What is told of a question, by whether it stands after an accepted finish.
    pub fn of_question(reply: Reply, finished: bool) -> Result<Told<'a>, Denied> {
        match reply {
            Reply::Label(label) => Ok(Told::Label(label?)),
            Reply::Effect(effect) if finished => Ok(Told::Effect(effect?)),
            Reply::Effect(_) | Reply::Unfinished => Err(Denied::BeforeFinish),
        }
    }
}
