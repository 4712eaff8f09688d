// Why no effect is answered, with the strip's and the book's faults whole inside.
ghost use Rattle.std.specs.Prelude.{◌≡◌};
ghost use Rattle.trial.specs.Faults.{effect_slip};
ghost use Rattle.trial.specs.declared.fault.EffectFault.TheVariants.{Strip, Book};

use book::fault::BookFault;
use refusal::{Fault, Layer, Slip};
use strip::fault::StripFault;

#[derive(Clone, Copy, Debug, PartialEq, Eq)]
pub enum EffectFault {
    // the arithmetic's count is not the plan's
    Strip(StripFault),
    // the words are not N, or not all of them are graded
    Book(BookFault),
    // no such factor
    Factor,
    // no such level: 0 for the first, 1 for the second
    Level(usize),
}

impl Fault for EffectFault {
    ghost tells = { effect_slip };

    // Kept: the refusal table's format needs the number and the place of its row.
    fn slip(&self) -> Slip {
        match self {
            EffectFault::Strip(fault) => fault.slip(),
            EffectFault::Book(fault) => fault.slip(),
            EffectFault::Factor => Slip {
                number: 8,
                layer: Layer::Book,
                place: 0,
            },
            EffectFault::Level(k) => Slip {
                number: 9,
                layer: Layer::Book,
                place: *k,
            },
        }
    }
}

// Kept: written by hand, as clauses read `from_gives`, which the derive of the crate thiserror does not give.
impl From<StripFault> for EffectFault {
    ghost from_gives = { λ f r. r ≡ Strip f };

    fn from(fault: StripFault) -> EffectFault {
        EffectFault::Strip(fault)
    }
}

impl From<BookFault> for EffectFault {
    ghost from_gives = { λ f r. r ≡ Book f };

    fn from(fault: BookFault) -> EffectFault {
        EffectFault::Book(fault)
    }
}
