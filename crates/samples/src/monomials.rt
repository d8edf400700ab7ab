// Pairs of monomials x and y in each order: how they compare, and their words. All weights are 1.
ghost use Rattle.std.specs.Prelude.{◌≡◌, ◌≤◌, length};

use crate::text;
use crate::words::{self, ORDERS};
use monomial::exponents::word_of;
use monomial::order::Order;
use std::cmp::Ordering;
use std::io;

// The largest exponent.
const M: u8 = 127;

// The exponents of x and of y, x1's first. The first two pairs are known results of document 01.
const PAIRS: [(&[u8], &[u8]); 24] = [
    (&[0, 2, 0], &[1, 0, 1]),
    (&[1, 0, 0], &[0, 5, 0]),
    (&[2, 1], &[1, 1]),
    (&[2, 1], &[2, 1]),
    (&[2, 0], &[1, 1]),
    (&[1, 1], &[0, 2]),
    (&[0], &[0]),
    (&[5], &[3]),
    (&[M], &[1]),
    (&[0, 0, 0], &[0, 0, 1]),
    (&[0, 0, 1], &[0, 1, 0]),
    (&[1, 1, 1], &[3, 0, 0]),
    (&[1, 2, 3, 4], &[4, 3, 2, 1]),
    (&[2, 1, 1, 2], &[1, 2, 2, 1]),
    (&[1, 0, 2, 0, 1], &[1, 1, 0, 1, 1]),
    (&[3, 2, 2, 1, 1], &[1, 0, 2, 0, 1]),
    (&[100, 3], &[27, 1]),
    (&[100, 3], &[28, 1]),
    (&[0, 0, 0, 0, 0, 64], &[0, 0, 0, 0, 0, 64]),
    (&[M, 0, 0, 0, 0, 0], &[0, M, M, M, M, M]),
    (&[M, M, M, M, M, M], &[M, M, M, M, M, M]),
    (&[M, M, M, M, M, M], &[M, M, M, M, M, 126]),
    (&[M, M, M, M, M, M], &[1, 0, 0, 0, 0, 0]),
    (&[M, M, M, M, M, M], &[0, 0, 0, 0, 0, 0]),
];

pub fn pairs(rt: &impl Print) -> io::Result<()> {
    for (x, y) in PAIRS {
        pair(rt, x, y)?;
    }
    Ok(())
}

// The pair of x and y in the three orders.
fn pair(rt: &impl Print, x: &[u8], y: &[u8]) -> io::Result<()> {
    if x.len() > 6 || y.len() > 6 {
        return Ok(());
    }
    for order in ORDERS {
        let u = word_in(order, x);
        let v = word_in(order, y);
        comparison(rt, order, x, y, order.compare(u, v))?;
        word(rt, order, x, u)?;
        word(rt, order, y, v)?;
    }
    Ok(())
}

fn comparison(rt: &impl Print, order: Order, x: &[u8], y: &[u8], is: Ordering) -> io::Result<()> {
    let sign = match is {
        Ordering::Less => "<",
        Ordering::Equal => "=",
        Ordering::Greater => ">",
    };
    text::order(rt, order)?;
    text::exponents(rt, x)?;
    print!(rt; " {sign} ")?;
    text::exponents(rt, y)?;
    println!(rt;)
}

fn word(rt: &impl Print, order: Order, x: &[u8], w: u64) -> io::Result<()>
    requires { length x.now ≤ 6 }
{
    text::order(rt, order)?;
    text::exponents(rt, x)?;
    words::reading(rt, order, x.len(), w)
}

// The word of the monomial with these exponents.
fn word_in(order: Order, x: &[u8]) -> u64
    requires { length x.now ≤ 6 }
{
    word_of(order, words::unit_weights(order), x)
}
