// The text of a strip listing: its request line is read from bytes, and its printed lines are appended to a string.
#![tactic(auto)]

mod cursor;
pub mod lines;
pub mod number;
pub mod request;
#[cfg(test)]
mod tests;
