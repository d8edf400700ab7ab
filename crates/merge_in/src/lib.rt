// The merge of a lent polynomial into another one in place, towards the room in front of it, for keys of one
// word or two.
// Kept: places are numbers, with clauses that they are there (`Into`, `i ≤ length fc`): a type of slice and place
// would be made for each call. And words and coefficients are two slices, as C lends them (`damselbuckle_run`).
#![tactic(auto)]

pub mod in_place; // the merge in place
