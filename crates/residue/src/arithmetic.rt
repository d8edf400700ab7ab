// Sum, negative and product modulo p, of numbers below p.
ghost use Rattle.std.specs.Prelude.{◌≡◌, ◌<◌};
ghost use Rattle.residue.specs.Modular.{Modulus, sum, negative, product};

// a + b modulo p. The sum is below 2p, so one subtraction is enough.
pub fn add(a: u32, b: u32, p: u32) -> u32
    requires { Modulus p × (a < p) × (b < p) }
    ensures { result ≡ sum p a b }
{
    let s = a + b;
    if s < p { s } else { s - p }
}

// -a modulo p.
pub fn negate(a: u32, p: u32) -> u32
    requires { Modulus p × (a < p) }
    ensures { result ≡ negative p a }
{
    if a == 0 { 0 } else { p - a }
}

// a times b modulo p, by a division. Where a is the same for many b, `Factor` is faster.
pub fn multiply(a: u32, b: u32, p: u32) -> u32
    requires { Modulus p × (a < p) × (b < p) }
    ensures { result ≡ product p a b }
{
    (u64::from(a) * u64::from(b) % u64::from(p)) as u32
}
