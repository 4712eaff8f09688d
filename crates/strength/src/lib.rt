// The strength checker: whether a table is an orthogonal array, and where it first fails if it is not.
// Rests on what every refusal tells.
#![tactic(auto)]

pub mod cell;
mod checked;
pub mod checking;
mod chosen;
pub mod claim;
mod counting;
pub mod fault;
mod refuse;
mod search;
#[cfg(test)]
mod tests;
