// Slices of monomials of one word or two, read as lists of numbers. There is no code here: only what the
// contracts of other crates cite, and its laws.
#![tactic(auto)]
