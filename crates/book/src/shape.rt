// The book, whose cursor is always the number of a label, and the finished book. Their fields are the crate's own,
// so that a book comes only from opening, and a finished one only from an accepted finish.
ghost use Rattle.std.specs.Prelude.{◌<◌};

use plan::shape::Plan;

#[derive(Drop)]
pub struct Book {
    pub(crate) plan: Plan,
    // the label from which the next take goes up
    pub(crate) cursor: u32,
    ghost below: { cursor < plan.labels },
}

// What an accepted finish hands out. No grading call takes it.
#[derive(Drop)]
pub struct Finished {
    pub(crate) plan: Plan,
}
