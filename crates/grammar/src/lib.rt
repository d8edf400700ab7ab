// The grammar of scripts, and the reader of their parts.
#![tactic(auto)]

pub mod entry; // a term
pub mod header; // the first lines
pub mod numbers; // numbers parted by a byte
pub mod weights; // the weights
