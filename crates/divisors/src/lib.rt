// The divisors of a reduction, as they are lent.
// Kept: `Packed word` and `AllPacked tail` as clauses, in `divisor` and `highest`: words are lent as plain numbers,
// and a slice of them is no slice of another type without a copy.
#![tactic(auto)]

pub mod divisor; // the divisor that a lead is divided by
pub mod inverse; // the inverses of their lead coefficients
pub mod highest; // the highest exponents of their tails
pub mod kept; // what is kept of these two
