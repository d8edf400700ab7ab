// The inverses of the divisors' lead coefficients, and the factors that they make. An inverse is kept
// in one number, with its share of p above it: in 16 bits of 64 where p is at most 2^16, which makes a
// factor with no division, and else in 32, which makes one with one division.
ghost use Rattle.std.specs.Prelude.{◌≡◌, ◌+◌, ◌-◌, ◌*◌, ◌/◌, ◌<◌, ◌≤◌};
ghost use Rattle.residue.specs.Modular.{Modulus, product, inverse_of};
ghost use Rattle.residue.specs.Prime.{Prime};
ghost use Rattle.residue.specs.Share.{FactorOf};
ghost use Rattle.divisors.specs.Divisors.{lead_coef, in_one, inverse_in, InverseKept, Inverting, Multiplying};

use crate::kept::{Cache, kept_or};
use polynomial::part::Polynomials;
use residue::factor::Factor;
use residue::inverse::invert;

// The largest p for which the low 16 bits hold a number below p.
const SMALL: u32 = 65536;

// 2^16, 2^32 and 2^48
const HALF: u64 = 0x1_0000;

const WORD: u64 = 0x1_0000_0000;

const PARTS: u64 = 0x1_0000_0000_0000;

// The inverse of the lead coefficient of divisor k, in one number, which is kept.
pub fn lead_inverse(p: u32, ps: Polynomials, k: usize, kept: &mut Cache) -> u64
    requires { Inverting p ps.coefs.now ps.starts.now k kept.old.inverses }
    ensures { (result ≡ in_one p (inverse_of p (lead_coef ps.entry.coefs.now ps.entry.starts.now k))) × InverseKept k result kept.old kept.new }
{
    let c = ps.coefs[ps.starts[k]];
    kept_or(&mut kept.inverses, k, || inverse_in_one(c, p))
}

// The inverse of c in one number.
fn inverse_in_one(c: u32, p: u32) -> u64
    requires { Modulus p × Prime p × (0 < c) × (c < p) }
    ensures { result ≡ in_one p (inverse_of p c) }
{
    in_one(invert(c, p), p)
}

// The factor x times the inverse that is kept. For a large p the inverse is a factor itself, and its product with
// x makes a new one. For a small p, with the inverse's share in parts of 2^48, one product gives the quotient and
// the factor's share at once.
pub fn factor_by(p: u32, x: u32, kept: u64) -> Factor
    requires { Multiplying p x kept }
    ensures { FactorOf p (product p x (inverse_in p kept)) result }
{
    if p > SMALL {
        let inverse = Factor {
            value: (kept % WORD) as u32,
            share: (kept / WORD) as u32,
            prime: p,
        };
        return Factor::new(inverse.times(x), p);
    }
    let whole = u64::from(x) * (kept % HALF);
    let estimate = kept / HALF * u64::from(x) / HALF;
    let share = correct(whole * WORD, estimate, u64::from(p));
    Factor {
        value: (whole - share / WORD * u64::from(p)) as u32,
        share: (share % WORD) as u32,
        prime: p,
    }
}

// A number below p in one number with its share: the one division.
// Kept: a value and its share in one number. A struct of both would take 16 bytes, since for a small p the share has
// 48 bits: 8,192 bytes more for the 1,024 that are kept on the stack (see `kept`).
fn in_one(value: u32, p: u32) -> u64
    requires { Modulus p × (value < p) }
    ensures { result ≡ in_one p value }
{
    let v = u64::from(value);
    if p <= SMALL {
        v * PARTS / u64::from(p) * HALF + v
    } else {
        v * WORD / u64::from(p) * WORD + v
    }
}

// n divided by p, from an estimate that is right or one too small.
fn correct(n: u64, estimate: u64, p: u64) -> u64
    requires { (estimate * p ≤ n) × (n < estimate * p + p + p) × (0 < p) }
    ensures { result ≡ n / p }
{
    if n - estimate * p < p {
        estimate
    } else {
        estimate + 1
    }
}
