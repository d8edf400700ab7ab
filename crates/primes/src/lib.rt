// The test for primes.
#![tactic(auto)]

ghost use Rattle.std.specs.Prelude.{◌≡◌};
ghost use Rattle.residue.specs.Prime.{is_prime};

use crate::table::prime_to_46349;
use trial_division::divide_odd::divide_odd;
use trial_division::small::prime_to_317;

pub mod table; // trial division from 317 on

// Whether p is prime, by trial division by the primes up to its root. The large table is made where its
// function starts, so that a p below the square of 317 does without it. Past the table all odd numbers
// are tried: none where p is below 2^31.
pub fn is_prime(p: u32) -> bool
    ensures { result ≡ is_prime p }
{
    if !prime_to_317(p) {
        return false;
    }
    if p < 317 * 317 {
        return true;
    }
    if !prime_to_46349(p) {
        return false;
    }
    divide_odd(p, 46349)
}
