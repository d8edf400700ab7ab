// What the calls on a geobucket share: runs, reductions, and those that come later.
#![tactic(auto)]

pub mod answer; // what a call answers
pub mod state; // what a call keeps on its way
