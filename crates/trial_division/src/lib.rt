// Trial division: whether a number has a divisor among those up to a limit.
#![tactic(auto)]

// Kept: no plainer with one function for `divide`, `divide_exactly` and `divide_odd`: the tables differ in kind, and
// the third has none; the tests of a divisor differ too, so that the shared part would be the test for the root.
// Kept: `prime_to from p` as a clause, in these three and in `small`: what makes it true is the answer of the test
// before, a bool that `is_prime` goes on by, so a struct of p and `from` with it would be made for each test and be
// opened there.

pub mod divide; // by the primes of a table, with a division for each
pub mod divide_exactly; // by the primes of a table, with a product for each
pub mod divide_odd; // by all odd numbers
pub mod small; // by the primes below 317
