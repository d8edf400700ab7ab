// The prime test on a row of numbers, and sums, negatives, products and inverses modulo p.
ghost use Rattle.std.specs.Prelude.{◌<◌};
ghost use Rattle.residue.specs.Modular.{Modulus};

use primes::is_prime;
use residue::arithmetic::{add, multiply, negate};
use residue::factor::Factor;
use residue::inverse::invert;
use std::io;

// Squares of primes, the ends of the type, and the largest modulus and its neighbours are among
// them.
const NUMBERS: [u32; 32] = [
    0, 1, 2, 3, 4, 5, 9, 25, 35, 49, 77, 91, 97, 121, 561, 65519, 65520, 65521, 65535, 65537,
    2147117569, 2147483629, 2147483646, 2147483647, 2147483648, 2147483659, 3215031751, 4292870399,
    4293001441, 4294836225, 4294967291, 4294967295,
];

// A modulus p and two numbers a and b. Some are refused: p below 2 or over 2^31 - 1, a or b not
// below p; p = 4 and p = 65535, which are not prime, only for the inverse.
const ROWS: [[u32; 3]; 28] = [
    [2, 0, 0],
    [2, 1, 0],
    [2, 1, 1],
    [2, 1, 2],
    [3, 0, 2],
    [3, 1, 2],
    [3, 2, 2],
    [7, 0, 6],
    [7, 1, 6],
    [7, 2, 3],
    [7, 3, 5],
    [7, 6, 6],
    [7, 7, 1],
    [65521, 1, 65520],
    [65521, 2, 32761],
    [65521, 65519, 2],
    [65521, 65520, 65520],
    [65521, 12345, 54321],
    [2147483647, 0, 2147483646],
    [2147483647, 1, 2147483646],
    [2147483647, 2, 1073741824],
    [2147483647, 2147483646, 2147483646],
    [2147483647, 2147483645, 2147483646],
    [2147483647, 1234567890, 2000000011],
    [4, 3, 2],
    [65535, 65534, 65534],
    [1, 0, 0],
    [2147483648, 1, 1],
];

pub fn primes(rt: &impl Print) -> io::Result<()> {
    for p in NUMBERS {
        let not = if is_prime(p) { "" } else { "not " };
        println!(rt; "{p} {not}prime")?;
    }
    Ok(())
}

pub fn rows(rt: &impl Print) -> io::Result<()> {
    for [p, a, b] in ROWS {
        modulo(rt, p, a, b)?;
    }
    Ok(())
}

fn modulo(rt: &impl Print, p: u32, a: u32, b: u32) -> io::Result<()> {
    if p < 2 || p > 2147483647 || a >= p || b >= p {
        return println!(rt; "mod {p}: {a} and {b} refused");
    }
    let sum = add(a, b, p);
    let negative = negate(a, p);
    let product = multiply(a, b, p);
    let by_factor = factor_times(p, a, b);
    println!(rt; "mod {p}: {a} + {b} = {sum}")?;
    println!(rt; "mod {p}: -{a} = {negative}")?;
    println!(rt; "mod {p}: {a} * {b} = {product}")?;
    println!(rt; "mod {p}: {a} as a factor * {b} = {by_factor}")?;
    match inverse_of(p, a) {
        Some(r) => println!(rt; "mod {p}: 1 / {a} = {r}"),
        None => println!(rt; "mod {p}: 1 / {a} refused"),
    }
}

// The product by the prepared factor a.
fn factor_times(p: u32, a: u32, b: u32) -> u32
    requires { Modulus p × (a < p) × (b < p) }
{
    Factor::new(a, p).times(b)
}

// The inverse of a modulo p: none where a is 0 or p not prime.
fn inverse_of(p: u32, a: u32) -> Option<u32>
    requires { Modulus p × (a < p) }
{
    if a == 0 {
        return None;
    }
    if !is_prime(p) {
        return None;
    }
    Some(invert(a, p))
}
