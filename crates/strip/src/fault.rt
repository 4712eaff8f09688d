// Why a call on a strip is refused.
ghost use Rattle.std.specs.Prelude.{◌≡◌};
ghost use Rattle.strip.specs.Faults.{strip_slip};

use refusal::{Fault, Layer, Slip};

#[derive(Clone, Copy, Debug, PartialEq, Eq)]
pub enum StripFault {
    // the arithmetic's count is not the plan's
    Count,
    // the cells do not fit the table
    Room,
    // first label plus count is above the number of labels
    Labels,
    // this label is not below the number of labels
    Label(u32),
    // no such factor: the index of the wish, or 0
    Factor(usize),
    // no such level or fine setting: the index of the wish, or 0
    Setting(usize),
    // not as many wishes as the strength
    Wishes,
    // a factor is wished for again: the index of the second wish
    Repeated(usize),
}

impl Fault for StripFault {
    ghost tells = { strip_slip };

    // Kept: the refusal table's format needs the number and the place of its row.
    fn slip(&self) -> Slip {
        let (number, place) = match *self {
            StripFault::Count => (1, 0),
            StripFault::Room => (6, 0),
            StripFault::Labels => (7, 0),
            StripFault::Label(label) => (7, label as usize),
            StripFault::Factor(k) => (8, k),
            StripFault::Setting(k) => (9, k),
            StripFault::Wishes => (11, 0),
            StripFault::Repeated(k) => (12, k),
        };
        Slip {
            number,
            layer: Layer::Strip,
            place,
        }
    }
}
