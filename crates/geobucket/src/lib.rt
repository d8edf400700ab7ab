// The published geobucket on six lists of terms: `specs/` has its definitions, `proofs/` its
// theorems. There is no code; the crate `buckets` has that.
#![tactic(auto)]
