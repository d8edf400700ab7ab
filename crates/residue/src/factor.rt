// Products modulo p by one factor, with no division for each product (Shoup's method).
ghost use Rattle.std.specs.Prelude.{◌≡◌, ◌<◌};
ghost use Rattle.residue.specs.Modular.{Modulus, product};
ghost use Rattle.residue.specs.Share.{FactorOf, Prepared};

const WORD: u64 = 0x1_0000_0000;

// A factor and its modulus. `share` is value * 2^32 / prime, rounded down.
#[derive(Clone, Copy)]
pub struct Factor {
    pub value: u32,
    pub share: u32,
    pub prime: u32,
}

impl Factor {
    // The factor `value` modulo p: the one division.
    pub fn new(value: u32, p: u32) -> Self
        requires { Modulus p × (value < p) }
        ensures { FactorOf p value result }
    {
        Self {
            value,
            share: (u64::from(value) * WORD / u64::from(p)) as u32,
            prime: p,
        }
    }

    // The factor times x. The quotient that the share gives is at most one too small, so one
    // subtraction of the modulus is enough. What it leaves is below 2^32, and is compared in 32 bits,
    // so that the processor makes several products at once.
    // Kept: may not change: `Prepared self` is a clause, here, at `put_scaled` of `multiple` and in what the reducer
    // asks, and no invariant of the type: docs/ASSURANCE.md and docs/changes/4-larger-primes.md name `Factor` and
    // `times` by what they ask, so the type does not become narrower.
    pub fn times(self, x: u32) -> u32
        requires { Prepared self × (x < self.prime) }
        ensures { result ≡ product self.prime self.value x }
    {
        let p = self.prime;
        let quotient = u64::from(self.share) * u64::from(x) / WORD;
        let r = (u64::from(self.value) * u64::from(x) - quotient * u64::from(p)) as u32;
        if r < p { r } else { r - p }
    }
}
