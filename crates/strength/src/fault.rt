// Why a table is not checked.
ghost use Rattle.strength.specs.Faults.{checker_slip};

use refusal::{Fault, Layer, Slip};

#[derive(Clone, Copy, Debug, PartialEq, Eq)]
pub enum CheckerFault {
    // levels outside 2 to 16
    Levels,
    // factors outside 1 to 17
    Factors,
    // strength 0 or above the factors
    Strength,
    // more than 65,536 combinations, or runs outside 1 to 65,536
    Size,
    // the table is not runs times factors, or the counters are not as many as the combinations
    Memory,
    // a cell's level is not below the levels: the index of the first such cell
    Cell(usize),
}

impl Fault for CheckerFault {
    ghost tells = { checker_slip };

    // Kept: the refusal table's format needs the number and the place of its row.
    fn slip(&self) -> Slip {
        let (number, place) = match *self {
            CheckerFault::Levels => (1, 0),
            CheckerFault::Factors => (2, 0),
            CheckerFault::Strength => (3, 0),
            CheckerFault::Size => (5, 0),
            CheckerFault::Memory => (6, 0),
            CheckerFault::Cell(k) => (9, k),
        };
        Slip {
            number,
            layer: Layer::Checker,
            place,
        }
    }
}
