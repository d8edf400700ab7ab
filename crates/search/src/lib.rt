// The search for the lead of the buckets in lent space.
#![tactic(auto)]

pub mod candidate; // what the search keeps on its way
pub mod lead; // the search
mod largest; // a search that only looks
