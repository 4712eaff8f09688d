// The commands of a script: how a line of each is written, and what it asks for.
// Rests on the book's calls and on the trial's questions.
use book::calls::Call;
use line_text::number::numeral;
use line_text::words::Words;
use std::alloc::{AllocError, AllocFailed, Global};
use std::{array, fmt};
use strip::wish::Wish;
use trial::question::Question;

#[derive(Clone, Copy)]
pub enum Command {
    Take,
    Mark,
    Spoil,
    Strike,
    Finish,
    Find,
    Locate,
    Effect,
}

// Why a line asks for nothing that there is.
#[derive(Clone, Copy)]
pub enum Bad {
    NoCommand,
    // a line of this command is written otherwise
    Form(Command),
}

// Why nothing was read off a line: want of memory, or a bad line.
#[derive(Drop)]
pub enum Unread {
    Memory(AllocError),
    Bad(Bad),
}

impl<T: Drop> From<AllocFailed<T>> for Unread {
    fn from(failed: AllocFailed<T>) -> Unread {
        Unread::Memory(AllocError::from(failed))
    }
}

impl From<Bad> for Unread {
    fn from(bad: Bad) -> Unread {
        Unread::Bad(bad)
    }
}

// What a line asks for, with how many words it hands in, where it says so. It hands in the book's words otherwise.
#[derive(Drop)]
pub enum Ask {
    Call(Call, Option<u32>),
    Question(Question, Option<u32>),
}

impl TryFrom<&[u8]> for Command {
    type Error = Bad;

    // The command that the first word of a line names.
    fn try_from(word: &[u8]) -> Result<Command, Bad> {
        match word {
            b"take" => Ok(Command::Take),
            b"mark" => Ok(Command::Mark),
            b"spoil" => Ok(Command::Spoil),
            b"strike" => Ok(Command::Strike),
            b"finish" => Ok(Command::Finish),
            b"find" => Ok(Command::Find),
            b"locate" => Ok(Command::Locate),
            b"effect" => Ok(Command::Effect),
            _ => Err(Bad::NoCommand),
        }
    }
}

// How a line of the command is written.
impl fmt::Display for Command {
    fn fmt<W: fmt::Write>(&self, f: &mut fmt::Formatter<W>) -> fmt::Result {
        f.write_str(match self {
            Command::Take => "take [with WORDS]",
            Command::Mark => "mark LABEL GRADE [with WORDS]",
            Command::Spoil => "spoil LABEL [with WORDS]",
            Command::Strike => "strike LABEL [with WORDS]",
            Command::Finish => "finish [with WORDS]",
            Command::Find => "find FACTOR/LEVEL ..",
            Command::Locate => "locate FACTOR/FINE",
            Command::Effect => "effect FACTOR A B [with WORDS]",
        })
    }
}

impl Command {
    // What its line asks of a book of so many labels, by the words after the first.
    pub fn ask(self, heap: Global, words: &mut Words<'_>, labels: usize) -> Result<Ask, Unread> {
        let asked = match self {
            Command::Take => call(
                Handed::read(words, labels),
                |len, []: [u32; 0]| Call::Take { len },
            ),
            Command::Mark => call(
                Handed::read(words, labels),
                |len, [label, grade]: [u32; 2]| Call::Mark { len, label, grade },
            ),
            Command::Spoil => call(
                Handed::read(words, labels),
                |len, [label]: [u32; 1]| Call::Spoil { len, label },
            ),
            Command::Strike => call(
                Handed::read(words, labels),
                |len, [label]: [u32; 1]| Call::Strike { len, label },
            ),
            Command::Finish => call(
                Handed::read(words, labels),
                |len, []: [u32; 0]| Call::Finish { len },
            ),
            Command::Find => Some(find(heap, words)?),
            Command::Locate => locate(words),
            Command::Effect => effect(Handed::read(words, labels)),
        };
        Ok(asked.ok_or(Bad::Form(self))?)
    }
}

// What a line hands to its call: the length of the memory, so many numbers, and how many words the line names, if it does.
#[derive(Clone, Copy)]
struct Handed<A> {
    len: usize,
    numbers: A,
    with: Option<u32>,
}

impl<const N: usize> Handed<[u32; N]> {
    // Reads the numbers, and how many words the line names after them. The memory is the book's words where it names none.
    fn read(words: &mut Words<'_>, labels: usize) -> Option<Handed<[u32; N]>> {
        let mut numbers = [0; N];
        for number in numbers.iter_mut() {
            *number = words.number()?;
        }
        let with = match words.next() {
            None => None,
            Some(b"with") => Some(words.number()?),
            Some(_) => return None,
        };
        words.end()?;
        let len = with.map_or(labels, |count| count as usize);
        Some(Handed { len, numbers, with })
    }
}

// The call that is made of what a line hands to it.
fn call<A: Copy, F: FnOnce(usize, A) -> Call + Drop>(
    handed: Option<Handed<A>>,
    make: F,
) -> Option<Ask>
    requires { F.IsAlwaysCallable make }
{
    let Handed { len, numbers, with } = handed?;
    Some(Ask::Call(make(len, numbers), with))
}

fn effect(handed: Option<Handed<[u32; 3]>>) -> Option<Ask> {
    let Handed { len, numbers, with } = handed?;
    let [factor, a, b] = numbers;
    Some(Ask::Question(Question::Effect { len, factor, a, b }, with))
}

// One wish or more, to the end of the line.
fn find(heap: Global, words: &mut Words<'_>) -> Result<Ask, Unread> {
    let mut wishes = Vec::new(heap);
    for word in words {
        let (factor, level) = pair(word).ok_or(Bad::Form(Command::Find))?;
        wishes.push(Wish { factor, level })?;
    }
    if wishes.is_empty() {
        return Err(Unread::Bad(Bad::Form(Command::Find)));
    }
    Ok(Ask::Question(Question::Find(wishes), None))
}

fn locate(words: &mut Words<'_>) -> Option<Ask> {
    let (factor, fine) = pair(words.next()?)?;
    words.end()?;
    Some(Ask::Question(Question::Locate { factor, fine }, None))
}

// The two numbers that a word writes with a stroke between them.
fn pair(word: &[u8]) -> Option<(u32, u32)> {
    let stroke = word.iter().position(|byte| *byte == b'/')?;
    Some((numeral(&word[..stroke])?, numeral(&word[stroke + 1..])?))
}
