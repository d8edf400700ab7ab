// The setting of the problem.
ghost use Rattle.std.specs.Prelude.{◌≡◌, length};
ghost use Rattle.refusal.specs.Table.{refusal_in};
ghost use Rattle.polynomial.specs.Settings.{setting_of};
ghost use Rattle.opening.specs.Run.{setting};

use crate::weights::weights_good;
use limits::{LARGEST_PRIME, MOST_VARIABLES};
use polynomial::setting::{Setting, setting_of};
use primes::is_prime;
use refusal::Refusal;

// The setting as it is given: any numbers, and any number of weights.
#[derive(Clone, Copy)]
pub struct GivenSetting<'a> {
    pub p: u32,
    pub order: u32,
    pub n: u32,
    pub weights: &'a [u32],
}

impl GivenSetting<'_> {
    // Checks that p is a prime from 2 to 2,147,483,647, then that order is 1 to 3, then that n is 1 to 6,
    // then each weight's range. The limit of p is tested first: the prime test of a larger p is not made.
    #[tactic(auto, unfolding(crate::specs::Run::setting))]
    pub fn check(self) -> Result<(), Refusal>
        ensures { refusal_in result ≡ setting (setting_of self.entry.p self.entry.order self.entry.n self.entry.weights.now) }
    {
        if self.p > LARGEST_PRIME || !is_prime(self.p) {
            return Err(Refusal::NotPrime);
        }
        if !(1..=3).contains(&self.order) {
            return Err(Refusal::BadOrder);
        }
        if !(1..=MOST_VARIABLES).contains(&self.n) {
            return Err(Refusal::BadVariables);
        }
        if !weights_good(self.n, self.weights) {
            return Err(Refusal::BadWeight);
        }
        Ok(())
    }

    // The setting, where there are six weights.
    pub fn setting(self) -> Setting
        requires { length self.weights.now ≡ 6 }
        ensures { result ≡ setting_of self.entry.p self.entry.order self.entry.n self.entry.weights.now }
    {
        setting_of(self.p, self.order, self.n, self.weights)
    }
}
