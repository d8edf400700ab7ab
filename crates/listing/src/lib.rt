// The listing of a script.
#![tactic(auto)]

pub mod entry; // the entry
mod whole; // the whole listing
