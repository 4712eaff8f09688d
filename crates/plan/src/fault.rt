// Why a plan is refused.
ghost use Rattle.std.specs.Prelude.{◌≡◌};
ghost use Rattle.plan.specs.Faults.{plan_slip};

use refusal::{Fault, Layer, Slip};

// Each variant's number is its row in the refusal table.
#[derive(Clone, Copy, Debug, PartialEq, Eq)]
pub enum PlanFault {
    // s is outside 2 to 16
    Levels = 1,
    // d is 0 or above s
    Factors = 2,
    // t is 0 or above d
    Strength = 3,
    // t is 2 or more, and no arithmetic of s levels divides
    Undivided = 4,
    // s^t is above 65,536
    Labels = 5,
}

impl Fault for PlanFault {
    ghost tells = { plan_slip };

    // Kept: the refusal table's format needs the number and the place of its row.
    fn slip(&self) -> Slip {
        Slip {
            number: *self as u8,
            layer: Layer::Plan,
            place: 0,
        }
    }
}
