// The opening checks that look at numbers alone.
#![tactic(auto)]

pub mod divisors; // that no divisor is zero
pub mod lengths; // the lengths of what is lent
pub mod operations; // the list of operations of a run
