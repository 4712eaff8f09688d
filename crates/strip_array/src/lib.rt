// The table of a strip is an orthogonal array by the checker's definition. Rests on the strip and on that definition alone.
#![tactic(auto)]

pub mod table;
