// The answers of the entries as structs of numbers, for the C functions. Refusal 0 is none.
// Kept: the C interface: refusals as numbers, 0 for none, with values beside them, since C has no Result; and a
// struct for each entry, its fields named for it, as `library/damselbuckle.h` declares them.
#![tactic(auto)]

pub mod course; // of runs and reductions
pub mod lister; // of listings
pub mod store; // of writing and reading blocks
