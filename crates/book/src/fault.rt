// Why a call of the book is refused.
ghost use Rattle.std.specs.Prelude.{◌≡◌};
ghost use Rattle.book.specs.Faults.{book_slip};

use refusal::{Fault, Layer, Slip};

#[derive(Clone, Copy, Debug, PartialEq, Eq)]
pub enum BookFault {
    // the words handed in are not N
    Words,
    // this label is not below N
    Label(u32),
    // the grade is above 1000
    Grade,
    // this label does not stand as the call needs it
    Standing(u32),
    // no label waits, and some label is out
    SomeOut,
    // the strip is done: every label is graded
    Done,
    // some label is not graded
    Ungraded,
    // the word of this label is torn
    Torn(u32),
}

impl Fault for BookFault {
    ghost tells = { book_slip };

    // Kept: the refusal table's format needs the number and the place of its row.
    fn slip(&self) -> Slip {
        let (number, place) = match *self {
            BookFault::Words => (6, 0),
            BookFault::Label(label) => (7, label as usize),
            BookFault::Grade => (10, 0),
            BookFault::Standing(label) => (13, label as usize),
            BookFault::SomeOut => (14, 0),
            BookFault::Done => (15, 0),
            BookFault::Ungraded => (16, 0),
            BookFault::Torn(label) => (17, label as usize),
        };
        Slip {
            number,
            layer: Layer::Book,
            place,
        }
    }
}
