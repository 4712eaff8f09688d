// The plan of a strip: its levels, strength, factors, seed and labels, with what always holds of them.
#![tactic(auto)]

pub mod fault;
pub mod making;
pub mod shape;
