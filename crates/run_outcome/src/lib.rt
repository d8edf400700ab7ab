// The outcome of a run: `specs/` has the operations on a geobucket and what a call leaves, `proofs/` the
// demands on it. There is no code: the entries of `runs` are equated with this outcome, so a definition
// that meets the demands leaves no wrong engine.
#![tactic(auto)]
