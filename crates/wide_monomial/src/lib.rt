// Monomials of two 64-bit words, in up to twelve variables.
#![tactic(auto)]

// Kept: no twins of the functions of one word, in `exponents`, `keys`, `layout` and `two`: they share x1 to x12 out
// between two words, and most are made of those. What the merges need of both, `Key` of `merge_common` has.
// Kept: no plainer as methods, in the same modules: a `Pair` holds the words of a monomial or its keys, and in
// `layout` weights or bits beyond, so that a method of `Pair` would be offered where it means nothing; and `Order`,
// to which most could belong, is a type of `monomial`, which takes its methods there alone.

pub mod exponents; // two words of exponents, and exponents of two words
pub mod keys; // the keys of two words, and the words of two keys
pub mod layout; // which two words are of the layout
pub mod pair;
pub mod two; // divisibility, product and quotient
pub mod width;
