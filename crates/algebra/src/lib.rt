// Theorems on polynomials over a ring of codes: each function's contract is one. Rests on the ring laws alone.
#![tactic(auto)]

ghost use Rattle.algebra.specs.Theorems.{Interpolates, Counts};

// Through points whose differences have inverses goes exactly one polynomial of as many coefficients.
pub fn interpolation_stands()
    ensures { Interpolates }
{}

// Numbers below s^t and lists of t codes are the same thing.
pub fn digits_stand()
    ensures { Counts }
{}
