// What is kept of the divisors, so that it is made once for each.
ghost use Rattle.std.specs.Prelude.{◌≤◌};
ghost use Rattle.divisors.specs.Divisors.{KnownOr, PutOrNot};

// How many divisors have something kept of them.
pub const KEPT: usize = 1024;

// What is kept of the first 1,024 divisors, that of divisor k at k - 1: the inverse of its lead coefficient, and the
// highest exponents of its tail. 0 stands for one that was not asked for yet.
// Kept: 0 for that: fixed memory, as the project has no heap. As `Option<u64>` the two arrays would take 16,384 bytes
// more of a stack of 100,000 (docs/INTEGRATION.md), of which a reduction by many terms needs some 80,000 already.
#[derive(Drop)]
pub struct Cache {
    pub inverses: [u64; KEPT],
    pub highest: [u64; KEPT],
}

// A number of divisor k, which `make` makes, and which is kept of the first 1,024 divisors.
pub(crate) fn kept_or<F: FnOnce() -> u64>(kept: &mut [u64; KEPT], k: usize, make: F) -> u64
    requires callable { F.IsAlwaysCallable make }
    requires counted { 1 ≤ k }
    ensures value { KnownOr k kept.old (F.post make) result }
    ensures put { PutOrNot k result kept.old kept.new }
{
    if k > KEPT {
        return make();
    }
    let known = kept[k - 1];
    if known != 0 {
        return known;
    }
    let made = make();
    kept[k - 1] = made;
    made
}
