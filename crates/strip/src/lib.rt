// The labels of a strip: rows of cells for any ring and any shuffler.
#![tactic(auto)]

pub mod array;
pub mod cell;
pub mod fault;
pub mod find;
pub mod label;
pub mod labels;
pub mod level;
pub mod locate;
pub mod rows;
pub mod wish;
