// The outcome of a reduction: `specs/` has its definition, `proofs/` the theorems on it that meet the
// customer's demands. There is no code: the entries of `reductions` are equated with this definition, so
// what the theorems bar here, no engine that meets the entries' contracts can do.
#![tactic(auto)]
