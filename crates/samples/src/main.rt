// Prints what `monomial` and `residue` compute on tables of cases, a line for each answer. The file
// `stdout` is what it must write.
#![tactic(auto)]

mod monomials; // comparison and word, in the three orders
mod residues; // the prime test, and the arithmetic modulo p
mod text; // what is written
mod words; // words of the layout, and others

use std::io;

fn main(rt: HostRuntime) -> io::Result<()> {
    monomials::pairs(&rt)?;
    words::given(&rt)?;
    residues::primes(&rt)?;
    residues::rows(&rt)
}
