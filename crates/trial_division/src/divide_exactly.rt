// Trial division by the primes of a table that has their inverses modulo 2^26: a product in place of
// a division.
ghost use Rattle.std.specs.Prelude.{◌≡◌, true, ◌*◌, ◌%◌, ◌≤◌, eqb};
ghost use Rattle.trial_division.specs.Tables.{prime_to, reached, gaps_of, Inverses};

// 2^26: more than any quotient of a 32-bit number by one from 64 on. An entry has half the gap above it.
const QUOTIENTS: u32 = 67108864;

// Carries the test of p on from the number `from` to the one that the table leads to, or to the root of p.
pub fn divide_exactly(p: u32, from: u32, table: &[u32]) -> bool
    requires { Inverses from table.now × (prime_to from p ≡ true) }
    ensures { result ≡ prime_to (reached from (gaps_of table.now)) p }
{
    // d is a u64, so that no test converts it: with a u32, 2^31 - 1 took 6.7 us, or 10.0 where the code stood
    // elsewhere in memory, and so it takes 6.3.
    let mut d = u64::from(from);
    for w in table {
        if d * d > u64::from(p) {
            return true;
        }
        if divides(p, d, *w) {
            return false;
        }
        d += u64::from(2 * (*w / QUOTIENTS));
    }
    true
}

// Whether d divides p, by its entry. p times the inverse of d is the quotient modulo 2^26, where there is
// one, and no quotient is larger; so d divides p exactly where d times it is p. The gap in w is a multiple
// of 2^26, and does not count.
fn divides(p: u32, d: u64, w: u32) -> bool
    requires { (64 ≤ d) × (d ≤ 4294967295) × (d * w % 67108864 ≡ 1) }
    ensures { result ≡ eqb (p % d) 0 }
{
    let quotient = u64::from(p) * u64::from(w) % u64::from(QUOTIENTS);
    quotient * d == u64::from(p)
}
