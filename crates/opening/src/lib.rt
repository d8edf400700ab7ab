// The opening checks of runs and of reductions.
#![tactic(auto)]

pub mod polynomials; // polynomial by polynomial
pub mod reduction; // all checks of a reduction, in their order
pub mod run; // all checks of a run, in their order
pub mod setting; // p, order, n and the weights
pub mod shape; // the sizes of what is lent
mod weights; // the weights
