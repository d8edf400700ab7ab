// The buckets in the lent spaces: where each of them lies, and how the spaces are left. Keys have one
// word or two, as a type `K: Key` says.
// Kept: in `state`, `leads` and `settle`, `Laid b`, `length b ≡ 18`, `i < 6` and the lengths of the spaces are clauses.
// They are of lent slices: a struct of these with the facts in ghost fields would have each contract name its five
// fields all the same, and say of each that it is the same borrow at return. A type for `i` would be made in each
// turn of a loop, to be taken apart where it is an index. And places are numbers, with clauses that they are there,
// and words and coefficients two slices, as C lends them (`damselbuckle_run`).
#![tactic(auto)]

pub mod leads; // a bucket's lead, in whichever space it lies
pub mod settle; // the spaces as they are at return
pub mod state; // each bucket's head, length and free area
