// Monomials packed in one 64-bit word, and the orders lp, Dp and dp on them.
#![tactic(auto)]

// Kept: no plainer as methods of `Order`, in `exponents`: `Order` has what turns a word and a key into each other and
// compares them, and `order.word_of(weights, exps)` beside `order.word(key)` would read as one thing.

pub mod exponents;
pub mod layout;
pub mod order;
pub mod word;
