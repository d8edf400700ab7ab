// The multiple of a polynomial by a term, on lent slices: words and coefficients are two, as C lends them.
#![tactic(auto)]

pub mod multiple; // whether it goes over 127, by the highest exponents, and the multiple
