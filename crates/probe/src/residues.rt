// Numbers modulo p. Where a number is not below p, or p is not from 2 to 2^31 - 1, the answer is
// u32::MAX.
ghost use Rattle.std.specs.Prelude.{◌≡◌, cond, ◌&&◌, ltb};
ghost use Rattle.residue.specs.Prime.{is_prime};
ghost use Rattle.residue.specs.Modular.{sum, negative, product, inverse_of};
ghost use Rattle.probe.specs.Answers.{able};

use limits::LARGEST_PRIME;
use primes::is_prime;
use residue::arithmetic::{add, multiply, negate};
use residue::factor::Factor;
use residue::inverse::invert;

// Kept: the C interface: numbers for answers, and REFUSED for none, as C has no Option.
const REFUSED: u32 = 0xffff_ffff;

#[unsafe(no_mangle)]
pub extern "C" fn probe_is_prime(p: u32) -> bool
    ensures { result ≡ is_prime p }
{
    is_prime(p)
}

#[unsafe(no_mangle)]
pub extern "C" fn probe_add(a: u32, b: u32, p: u32) -> u32
    ensures { result ≡ cond (able p a b) (sum p a b) 4294967295 }
{
    if !are_residues(p, a, b) {
        return REFUSED;
    }
    add(a, b, p)
}

#[unsafe(no_mangle)]
pub extern "C" fn probe_negate(a: u32, p: u32) -> u32
    ensures { result ≡ cond (able p a 0) (negative p a) 4294967295 }
{
    if !are_residues(p, a, 0) {
        return REFUSED;
    }
    negate(a, p)
}

#[unsafe(no_mangle)]
pub extern "C" fn probe_multiply_residues(a: u32, b: u32, p: u32) -> u32
    ensures { result ≡ cond (able p a b) (product p a b) 4294967295 }
{
    if !are_residues(p, a, b) {
        return REFUSED;
    }
    multiply(a, b, p)
}

// The same product, by the prepared factor a.
#[unsafe(no_mangle)]
pub extern "C" fn probe_factor_times(a: u32, b: u32, p: u32) -> u32
    ensures { result ≡ cond (able p a b) (product p a b) 4294967295 }
{
    if !are_residues(p, a, b) {
        return REFUSED;
    }
    Factor::new(a, p).times(b)
}

// u32::MAX also where a is 0 or p not prime.
#[unsafe(no_mangle)]
pub extern "C" fn probe_invert(a: u32, p: u32) -> u32
    ensures { result ≡ cond (able p a 0 && (ltb 0 a && is_prime p)) (inverse_of p a) 4294967295 }
{
    if !are_residues(p, a, 0) {
        return REFUSED;
    }
    if a == 0 {
        return REFUSED;
    }
    if !is_prime(p) {
        return REFUSED;
    }
    invert(a, p)
}

// Whether p is a modulus, and a and b are below it.
fn are_residues(p: u32, a: u32, b: u32) -> bool
    ensures { result ≡ able p a b }
{
    (2..=LARGEST_PRIME).contains(&p) && a < p && b < p
}
