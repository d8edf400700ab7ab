// Divisibility and quotient of monomials, by word arithmetic.
ghost use Rattle.std.specs.Prelude.{◌≡◌, ◌-◌, ◌≤◌};
ghost use Rattle.monomial.specs.Words.{Packed, divides_word};

// The top bit of each of the six fields.
pub const TOPS: u64 = 0x8080_8080_8080;

// Whether the monomial y divides x. With each field's top bit set in x and clear in y, no field
// borrows from the next, and a top bit stays set exactly where the exponent of y is not above.
// Kept: `Packed` as clauses: words come from lent slices of plain numbers, so a type would be made at each call.
pub fn divides(y: u64, x: u64) -> bool
    requires { Packed y × Packed x }
    ensures { result ≡ divides_word y x }
{
    let apart = x % 0x1_0000_0000_0000 + TOPS - y % 0x1_0000_0000_0000;
    apart & TOPS == TOPS
}

// The monomial x divided by y, which divides it: no field borrows, the degree's neither.
pub fn quotient(x: u64, y: u64) -> u64
    requires { y ≤ x }
    ensures { result ≡ x - y }
{
    x - y
}
