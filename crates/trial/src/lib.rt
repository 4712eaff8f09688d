// A trial from start to finish: effects off a finished book, and the call over a whole trial that carries every promise of it.
// Rests on the strip, the book and what holds of every design.
#![tactic(auto)]

pub mod conduct;
pub mod fault;
pub mod finished;
pub mod question;
