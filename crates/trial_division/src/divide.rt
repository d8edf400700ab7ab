// Trial division by the primes of a table, with a division for each.
ghost use Rattle.std.specs.Prelude.{◌≡◌, true, ◌*◌, ◌/◌, ◌%◌, ◌^◌, ◌<◌};
ghost use Rattle.trial_division.specs.Tables.{prime_to, reached, digits, Gaps};

// Carries the test of p on from the number `from` to the one that the table leads to, or to the root of p.
// The table has half gaps, 16 in each number, as its digits to the base 16 from the lowest up.
pub fn divide(p: u32, from: u32, table: &[u64]) -> bool
    requires { Gaps from (digits table.now) × (prime_to from p ≡ true) }
    ensures { result ≡ prime_to (reached from (digits table.now)) p }
{
    let mut d = from;
    for w in table {
        for k in 0..16 {
            if u64::from(d) * u64::from(d) > u64::from(p) {
                return true;
            }
            if p % d == 0 {
                return false;
            }
            d += 2 * digit(*w, k);
        }
    }
    true
}

// Digit k of w, from 0 on.
fn digit(w: u64, k: usize) -> u32
    requires { k < 16 }
    ensures { result ≡ w / 2 ^ (4 * k) % 16 }
{
    ((w >> (4 * k)) % 16) as u32
}
