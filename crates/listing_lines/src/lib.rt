// The lines of a listing, put into a slice of bytes.
#![tactic(auto)]

pub mod answers; // the lines of a run's leads and sums
pub mod ending; // the last line: cost or refusal
pub mod term; // what a term's text follows, and terms
pub mod put; // bytes, words and numbers into a lent slice
