// Runs of operations on a geobucket in lent space.
#![tactic(auto)]

pub mod run; // the operations in turn
