// Prints what a trial gave: a line for each line of its script, and the closing lines. Rests on the wording.
use crate::closing::{Effects, Tally};
use crate::script::{Content, Script};
use crate::told::{Denied, Told};
use crate::wording::{CallText, QuestionText, With};
use anyhow::anyhow;
use book::calls::Answer;
use book::row::Next;
use levels::arithmetic::Dividing;
use plan::shape::Plan;
use refusal::Slip;
use shuffle::any::AnyShuffler;
use std::fmt::Display;
use std::io;
use std::io::Write;
use std::slice::Iter;
use strip::cell::{Cell, Strip};
use trial::conduct::Outcome;
use trial::question::Reply;

// No strip has more levels than these, nor more factors. What is printed stands in arrays of so many: once the answers are
// there no memory is wanted.
const MOST: usize = 16;

// Prints the outcome of a script, which left the book's words so.
pub fn print<W: Write, R: Dividing>(
    out: &mut W,
    strip: &Strip<R, AnyShuffler>,
    script: &Script,
    outcome: &Outcome,
    words: &[u16],
) -> anyhow::Result<()> {
    let mut replies = outcome.replies.iter();
    let mut cells = [Cell { level: 0, fine: 0 }; MOST];
    print_entries(
        out,
        strip,
        script,
        &outcome.ran.answers,
        &mut replies,
        &mut cells[..strip.plan.factors as usize],
    )?;
    match outcome.ran.next {
        Next::Going(_) => writeln!(out, "{}", Tally::of(words))?,
        Next::Over(_) => print_effects(out, strip.plan, &mut replies)?,
    }
    Ok(())
}

// Prints a line for each entry of the script, and uses up the replies to its own questions.
fn print_entries<W: Write, R: Dividing>(
    out: &mut W,
    strip: &Strip<R, AnyShuffler>,
    script: &Script,
    answers: &[Result<Answer, Slip>],
    replies: &mut Iter<'_, Reply>,
    cells: &mut [Cell],
) -> anyhow::Result<()> {
    let mut answers = answers.iter();
    let mut questions = script.questions.iter();
    let mut finished = false;
    for entry in script.entries.iter() {
        match entry.content {
            Ok(Content::Call(call, with)) => {
                let answer = answers.next().copied();
                finished = finished || matches!(answer, Some(Ok(Answer::Finished)));
                let told = Told::of_call(strip, call, answer, cells);
                print_told(out, entry.line, CallText(call), with, told)?;
            }
            Ok(Content::Question(with)) => {
                let (Some(question), Some(reply)) = (questions.next(), replies.next()) else {
                    return Err(anyhow!("a question was not replied to"));
                };
                let told = Told::of_question(*reply, finished);
                print_told(out, entry.line, QuestionText(question), with, told)?;
            }
            Err(bad) => {
                let line = entry.line;
                writeln!(out, "{line} bad line: {bad}")?;
            }
        }
    }
    Ok(())
}

// Prints what the line with this text is told.
fn print_told<W: Write, D: Display + Drop>(
    out: &mut W,
    line: usize,
    text: D,
    with: Option<u32>,
    told: Result<Told<'_>, Denied>,
) -> io::Result<()> {
    let with = With(with);
    match told {
        Ok(told) => writeln!(out, "{line} {text}{with}: {told}"),
        Err(denied) => writeln!(out, "{line} {text}{with}: {denied}"),
    }
}

// Prints a line for each factor, from the replies to the closing questions.
fn print_effects<W: Write>(
    out: &mut W,
    plan: Plan,
    replies: &mut Iter<'_, Reply>,
) -> anyhow::Result<()> {
    let mut sums = [0; MOST];
    let sums = &mut sums[..plan.levels as usize];
    for factor in 0..plan.factors {
        next_sums(sums, replies)?;
        writeln!(out, "{}", Effects { factor, sums })?;
    }
    Ok(())
}

// Writes the sums of the next factor: at level 0 it stays 0, and at each other level it is the effect from there.
fn next_sums(sums: &mut [i64], replies: &mut Iter<'_, Reply>) -> anyhow::Result<()> {
    for sum in sums.iter_mut().skip(1) {
        let Some(Reply::Effect(Ok(effect))) = replies.next() else {
            return Err(anyhow!("an effect is wanting"));
        };
        *sum = *effect;
    }
    Ok(())
}
