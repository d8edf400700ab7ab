// The highest exponents of the divisors' tails.
ghost use Rattle.std.specs.Prelude.{◌≡◌};
ghost use Rattle.multiple.specs.Multiplying.{AllPacked, highest_word};
ghost use Rattle.divisors.specs.Divisors.{Keepable, HighestKept};

use crate::kept::{Cache, kept_or};
use multiple::multiple::highest;

// The highest exponents of the tail of divisor k, which are kept; where they are all 0, they are made each time.
pub fn tail_highest(tail: &[u64], k: usize, kept: &mut Cache) -> u64
    requires { AllPacked tail.now × Keepable k (highest_word tail.now) kept.old.highest }
    ensures { (result ≡ highest_word tail.now) × HighestKept k result kept.old kept.new }
{
    kept_or(&mut kept.highest, k, || highest(tail))
}
