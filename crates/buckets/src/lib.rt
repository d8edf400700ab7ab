// Additions to the geobucket in lent space, and its full sum.
#![tactic(auto)]

pub mod add; // an addition
pub mod last; // a merge into the last bucket
pub mod level; // the bucket that a number of terms goes to
pub mod sum; // the full sum
mod up; // a merge within the work space
