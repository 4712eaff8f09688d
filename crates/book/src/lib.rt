// The grading book over words that the caller holds, which answers as the plain book does.
// Rests on the refusal table and on the plan, of which it uses only the count of labels N.
#![tactic(auto)]

pub mod calls;
mod deed;
pub mod fault;
pub mod ledger;
pub mod row;
mod search;
pub mod shape;
pub mod standing;
