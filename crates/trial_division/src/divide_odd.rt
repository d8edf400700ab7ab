// Trial division by all odd numbers.
ghost use Rattle.std.specs.Prelude.{◌≡◌, true};
ghost use Rattle.residue.specs.Prime.{is_prime};
ghost use Rattle.trial_division.specs.Tables.{prime_to, Odd};

// Carries the test of p on from the odd number `from` to its root.
pub fn divide_odd(p: u32, from: u32) -> bool
    requires { Odd from × (prime_to from p ≡ true) }
    ensures { result ≡ is_prime p }
{
    // Kept: slower as a `for` to `p.isqrt()`: core's `isqrt` halves a range sixteen times, which took 40 ns in a sketch
    // in Rust for each prime over 317 * 317 (that of 2,147,483,647 takes 6.2 us in all), where the first test here ends
    // the loop for every p below 2^31.
    let mut d = from;
    while u64::from(d) * u64::from(d) <= u64::from(p) {
        if p % d == 0 {
            return false;
        }
        d += 2;
    }
    true
}
