// What a label has for one factor, and the strip that says so.
use plan::shape::Plan;
use strength::cell::Levelled;

// A level, and the fine setting within it.
#[derive(Clone, Copy, Debug, PartialEq, Eq)]
pub struct Cell {
    pub level: u8,
    pub fine: u16,
}

// A cell tells its level, so that the checker takes a strip's table as it is.
impl Levelled for Cell {
    ghost level = { λ c. c.level };

    fn level(&self) -> u32 {
        u32::from(self.level)
    }
}

// A plan with the arithmetic and the shuffler that its labels are made by.
#[derive(Clone, Copy)]
pub struct Strip<R, S> {
    pub plan: Plan,
    pub ring: R,
    pub shuffler: S,
}
