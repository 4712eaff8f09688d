// The strip listing: from the bytes of the input to all bytes printed. Rests on the strip and on the text of its lines.
#![tactic(auto)]

pub mod fault;
pub mod lines;
pub mod listing;
pub mod print;
