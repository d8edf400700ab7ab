// What the merges share, on lent slices, for terms whose key is one word or two.
// Kept: in `copy`, `keys` and `shift` a place of a slice is a number, with a clause that it is there
// (`to + length src ≤ length dst`, `j ≤ length b`): a type of slice and place would be made for one call each. And
// words and coefficients are two slices there, as C lends them (`damselbuckle_run`).
#![tactic(auto)]

pub mod copy; // parts of slices, put and moved
pub mod keys; // words put as keys, and keys as words
pub mod merging; // what a merge makes, and the choice by flags
pub mod places; // what lies at a place: one word or two
pub mod shift; // terms moved up within a space
