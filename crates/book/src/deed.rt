// What mark, spoil and strike do to one label.
ghost use Rattle.std.specs.Prelude.{◌≡◌, false};
ghost use Rattle.refusal.specs.Table.{Answers};
ghost use Rattle.book.specs.Standings.{code};
ghost use Rattle.book.specs.Faults.{book_slip};
ghost use Rattle.book.specs.Deeds.{made, is_high, against};

use crate::fault::BookFault;
use crate::standing::Standing;

// Kept: the rows against a deed, its call and what it makes are told of the deed; a closure would show none of them.
#[derive(Clone, Copy)]
pub enum Deed {
    Mark(u32),
    Spoil,
    Strike,
}

impl Deed {
    // Whether it gives a grade above 1000.
    pub(crate) fn is_high(self) -> bool
        ensures { result ≡ is_high self }
    {
        match self {
            Deed::Mark(grade) => grade > 1000,
            Deed::Spoil | Deed::Strike => false,
        }
    }

    // The word that a label of this standing gets.
    pub(crate) fn turns(self, standing: Standing, label: u32) -> Result<u16, BookFault>
        requires { is_high self ≡ false }
        ensures { Answers book_slip (against self standing label) (λ word. word ≡ code (made self)) result }
    {
        match (standing, self) {
            (Standing::Out, Deed::Mark(grade)) => Ok(grade as u16 + 2),
            (Standing::Out, Deed::Spoil) | (Standing::Graded(_), Deed::Strike) => Ok(0),
            (Standing::Torn, _) => Err(BookFault::Torn(label)),
            (Standing::Waiting, _) | (Standing::Out, Deed::Strike) => Err(BookFault::Standing(
                label,
            )),
            (Standing::Graded(_), Deed::Mark(_) | Deed::Spoil) => Err(BookFault::Standing(label)),
        }
    }
}
