// The block store: polynomials written to bytes and read back.
#![tactic(auto)]

pub mod read; // the entry `read_blocks`
pub mod terms; // the terms in blocks
pub mod write; // the entry `write_blocks`
