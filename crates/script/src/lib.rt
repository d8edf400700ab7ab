// The script reader: from the bytes of a script to what a run takes.
#![tactic(auto)]

pub mod line; // an addition's terms, and a line
pub mod lines; // all lines behind the first ones
pub mod reader; // a whole script
