// The words of a line, and the numbers that they write. Rests on the listing's text for what a numeral is.
#![tactic(auto)]

pub use listing_text::number;

pub mod words;
