// The inverse modulo a prime.
ghost use Rattle.std.specs.Prelude.{◌≡◌, ◌<◌};
ghost use Rattle.residue.specs.Modular.{Modulus, inverse_of};
ghost use Rattle.residue.specs.Prime.{Prime};

use crate::arithmetic::multiply;

// The inverse of a modulo the prime p, by Euclid's algorithm: each remainder r is u * a or -u * a
// modulo p, in turn, and the last one is 1. r0 at least halves in two steps, so there are at most
// about 2 * log2(p) steps, with one division each.
pub fn invert(a: u32, p: u32) -> u32
    requires { Modulus p × Prime p × (0 < a) × (a < p) }
    ensures { result ≡ inverse_of p a }
{
    let mut r0 = p;
    let mut r1 = a;
    let mut u0: u32 = 0;
    let mut u1: u32 = 1;
    while r1 != 0 {
        let q = r0 / r1;
        let r2 = r0 - q * r1;
        let u2 = u0 + q * u1;
        r0 = r1;
        r1 = r2;
        u0 = u1;
        u1 = u2;
    }
    if multiply(u0, a, p) == 1 { u0 } else { p - u0 }
}
