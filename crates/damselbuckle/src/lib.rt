// The library for Hopplan: the five entries as C functions on numbers and slices, a slice as a pointer and
// a length. They ask nothing but what the types say. An answer is a struct of numbers, in which refusal 0
// is none; library/damselbuckle.h declares them.
// Kept: the C interface: long lists of parameters, and functions that differ in the entry that they call.
#![tactic(auto)]

pub mod lister; // damselbuckle_listing
pub mod reduction; // damselbuckle_reduce
pub mod run; // damselbuckle_run
pub mod store; // damselbuckle_write_blocks and damselbuckle_read_blocks
