// The known results of document 01 that are proved: `specs/Known.antt` has their table, and
// `proofs/KnownLaws.antt` the theorem that every row of it holds. `proofs/LargestPrime.antt` says that the
// largest p of document 02 is a prime that is taken. There is no code.
#![tactic(auto)]
