// One block of the block store: its layout, written and looked at in a lent slice of bytes.
// Kept: all bytes and a place, `(s, at)`, in each module but weights: the layout is defined by places in all bytes
// (`number_at`, `setting_at`, `sets s at`), so that each clause is one equation. For a part, `&mut s[at..at + 16]`, each
// call would have its range to prove and the part to be put back, as `put_number` (`sets-mid`) and `clear` have once.
#![tactic(auto)]

pub mod block; // a whole block, written
pub mod check; // its last four bytes
pub mod filler; // runs of 0
pub mod header; // its first sixteen bytes
pub mod number; // little-endian numbers
pub mod places; // its 41 places for terms
pub mod weights; // the weights as one number

// "A block is 512 bytes": a header, places for terms, and the check.
pub const BLOCK_BYTES: usize = 512;

pub const HEADER_BYTES: usize = 16;

// "41 places of 12 bytes (word, coefficient)"
pub const BLOCK_TERMS: usize = 41;

pub const PLACE_BYTES: usize = 12;

// Where the check begins.
pub const CHECK_AT: usize = 508;

// "1 to 100 whole blocks"
pub const MOST_BLOCKS: usize = 100;
