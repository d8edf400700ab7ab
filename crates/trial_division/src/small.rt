// Trial division by the primes below 317.
ghost use Rattle.std.specs.Prelude.{◌≡◌, true};
ghost use Rattle.trial_division.specs.Tables.{prime_to};

use crate::divide::divide;

// Whether p is above 1, and no number below 317 divides it but 1 and p.
pub fn prime_to_317(p: u32) -> bool
    ensures { result ≡ prime_to 317 p }
{
    if p < 4 {
        return 1 < p;
    }
    if p % 2 == 0 {
        return false;
    }
    divide_small(p)
}

// The same of a p that 2 does not divide. The table has half the gaps between the primes from 3 to 317.
fn divide_small(p: u32) -> bool
    requires { prime_to 3 p ≡ true }
    ensures { result ≡ prime_to 317 p }
{
    let table: [u64; 4] = [
        0x1332123132121211,
        0x1327212124323123,
        0x1266121513323315,
        0x2127512313335132,
    ];
    divide(p, 3, &table)
}
