// Prints whether the table of levels on standard input is an orthogonal array. It only reads and prints: the verdict is the
// checker's.
#![tactic(auto)]

mod answer;
mod fault;
mod reading;
mod table;

use answer::Answer;
use fault::Unanswered;
use reading::read;
use std::alloc::Global;
use std::io::{BufRead, BufReader};

// What the checker answers to the table that a text writes.
fn answer_to<B: BufRead + Drop>(heap: Global, text: B) -> Result<Answer, Unanswered> {
    let table = read(heap, text)?;
    Answer::of(heap, &table)
}

fn run(rt: &HostRuntime) -> anyhow::Result<()> {
    let heap = rt.alloc();
    match answer_to(heap, BufReader::new(heap, rt.stdin())?) {
        Ok(answer) => println!(rt; "{answer}")?,
        Err(Unanswered::Refused(refusal)) => println!(rt; "{refusal}")?,
        Err(Unanswered::Failed(error)) => return Err(error),
    }
    Ok(())
}

fn main(rt: HostRuntime) -> anyhow::Result<()> {
    run(&rt)
}
