// Polynomials as lists of terms in lent slices: their ring, their parts, and their opening checks.
#![tactic(auto)]

pub mod check;
pub mod part;
pub mod ring;
pub mod setting;
pub mod starts;
pub mod terms;
