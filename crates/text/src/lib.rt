// Bytes of text: fixed words, separators and decimal numbers.
#![tactic(auto)]

pub mod bytes; // whether a text is a word, and a text before and behind a separator
pub mod number; // decimal numbers
