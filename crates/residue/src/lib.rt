// Numbers modulo p, for every p from 2 up to 2^31 - 1.
#![tactic(auto)]

// Kept: p and the residues are plain numbers, in `arithmetic`, `factor` and `inverse`, and wherever `Modulus p` and
// `a < p` are asked for. They lie so in the slices that C lends: a type would be put round each number at every turn
// of a merge and taken off to store it, and would spare no fact, since what the merges ask (`Areas`, `Into`) says it
// of p and of all coefficients at once.

pub mod arithmetic; // sum, negative, product
pub mod factor; // products by one factor, with no division
pub mod inverse; // the inverse modulo a prime
