// Worked examples of the definitions, as one table that the checker computes.
#![tactic(auto)]

ghost use Rattle.worked.specs.Examples.{Tabulated};

pub fn tabulated()
    ensures { Tabulated }
{}
