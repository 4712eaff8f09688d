// The one fault of this layer: a count that the arithmetic being made does not serve.
ghost use Rattle.levels.specs.Faults.{told};

use refusal::{Fault, Layer, Slip};

#[derive(Clone, Copy, Debug, PartialEq, Eq)]
pub enum ArithmeticFault {
    Unserved,
}

impl Fault for ArithmeticFault {
    ghost tells = { told };

    // Kept: the refusal table's format needs the number and the place of its row.
    fn slip(&self) -> Slip {
        match self {
            ArithmeticFault::Unserved => Slip {
                number: 1,
                layer: Layer::Arithmetic,
                place: 0,
            },
        }
    }
}
