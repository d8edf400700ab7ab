// Whether bytes have the form of blocks: the refusals 8, 14, 15 and 16 of reading.
#![tactic(auto)]

pub mod count; // how many blocks, and how many terms in each
pub mod form; // checks, headers and filler
