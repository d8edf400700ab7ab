// The public functions of the crates below on numbers and slices, for a test in Rust to call. Where
// what is called requires more than holds, a fixed number that is no answer is returned; only the
// merge, the multiples and the operations on buckets have a `requires`.
// Kept: the C interface, here and in the modules below: eight parameters and more, as each slice is lent on
// its own; slices of 18, 3 or 2 places with a `length` in the contract, as C lends a slice, not an array;
// and functions that differ in the one that they call, as each is a name of its own to C.
#![tactic(auto)]

mod geobuckets;
mod monomials;
mod polynomials;
mod residues;
mod weights;
