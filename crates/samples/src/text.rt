// What is written to standard output: exponents and names of orders.
use monomial::order::Order;
use std::io;

// The exponents, parted by dots.
pub fn exponents(rt: &impl Print, exps: &[u8]) -> io::Result<()> {
    for (i, e) in exps.iter().enumerate() {
        dotted(rt, i, *e)?;
    }
    Ok(())
}

// The exponent at place i, after a dot unless it is the first.
pub fn dotted(rt: &impl Print, i: usize, e: u8) -> io::Result<()> {
    let dot = if i > 0 { "." } else { "" };
    print!(rt; "{dot}{e}")
}

pub fn order(rt: &impl Print, order: Order) -> io::Result<()> {
    print!(rt; "{order} ")
}
