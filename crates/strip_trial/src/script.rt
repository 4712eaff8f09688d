// A script: its lines in order, with the calls and the questions that they ask for. Rests on the commands.
use crate::command::{Ask, Bad, Command, Unread};
use book::calls::Call;
use line_text::words::Words;
use plan::shape::Plan;
use std::alloc::{AllocError, Global};
use trial::question::Question;

// What a line asks for, with how many words it hands in, where it says so.
#[derive(Clone, Copy)]
pub enum Content {
    Call(Call, Option<u32>),
    // the question that comes next among the script's
    Question(Option<u32>),
}

// A line that asks for something, with its number.
#[derive(Clone, Copy)]
pub struct Entry {
    pub line: usize,
    pub content: Result<Content, Bad>,
}

#[derive(Drop)]
pub struct Script {
    pub entries: Vec<Entry>,
    pub calls: Vec<Call>,
    // those of the lines, and then the effect from level 0 to each other level, factor by factor
    pub questions: Vec<Question>,
}

impl Script {
    // The script of a book with this plan, whose lines follow the first line of the text.
    pub fn read(heap: Global, text: &[u8], plan: Plan) -> Result<Script, AllocError> {
        let mut script = Script {
            entries: Vec::new(heap),
            calls: Vec::new(heap),
            questions: Vec::new(heap),
        };
        let lines = text.split(|byte| *byte == b'\n');
        for (i, line) in lines.enumerate().skip(1) {
            script.push_line(heap, i.saturating_add(1), line, plan.labels as usize)?;
        }
        script.push_closing(plan)?;
        Ok(script)
    }

    // Adds a line, if it asks for something.
    fn push_line(
        &mut self,
        heap: Global,
        line: usize,
        text: &[u8],
        labels: usize,
    ) -> Result<(), AllocError> {
        let mut words = Words::of(text);
        let Some(first) = words.next() else {
            return Ok(());
        };
        if first.starts_with(b"#") {
            return Ok(());
        }
        let content = match self.push_ask(heap, first, &mut words, labels) {
            Ok(content) => Ok(content),
            Err(Unread::Bad(bad)) => Err(bad),
            Err(Unread::Memory(error)) => return Err(error),
        };
        self.entries.push(Entry { line, content })?;
        Ok(())
    }

    // Adds the call or the question that a line asks for by its first word and the others.
    fn push_ask(
        &mut self,
        heap: Global,
        first: &[u8],
        words: &mut Words<'_>,
        labels: usize,
    ) -> Result<Content, Unread> {
        match Command::try_from(first)?.ask(heap, words, labels)? {
            Ask::Call(call, with) => {
                self.calls.push(call)?;
                Ok(Content::Call(call, with))
            }
            Ask::Question(question, with) => {
                self.questions.push(question)?;
                Ok(Content::Question(with))
            }
        }
    }

    // Adds the questions that the closing lines are printed from.
    fn push_closing(&mut self, plan: Plan) -> Result<(), AllocError> {
        for factor in 0..plan.factors {
            for a in 1..plan.levels {
                self.questions.push(Question::Effect {
                    len: plan.labels as usize,
                    factor,
                    a,
                    b: 0,
                })?;
            }
        }
        Ok(())
    }
}
