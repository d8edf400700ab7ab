// Division of a polynomial by others: `specs/` has the division algorithm on polynomials, the published
// reduction on a geobucket, and what an edit of a polynomial is; `proofs/` the theorems that tie them, and
// those on remainders apart from the steps of a division. There is no code.
#![tactic(auto)]
