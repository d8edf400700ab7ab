// Divisibility, product and quotient of monomials of two words, word by word.
ghost use Rattle.std.specs.Prelude.{◌≡◌, ◌+◌, ◌-◌, ◌≤◌};
ghost use Rattle.wide_monomial.specs.Wide.{paired};
ghost use Rattle.wide_monomial.specs.WideWords.{WidePacked, divides_wide, over_wide};

use crate::pair::Pair;
use monomial::word::{TOPS, divides};

// Whether the monomial y divides x.
// Kept: `WidePacked` as a clause, here and below. A Pair holds keys too, so the fact would need a type around it,
// which `product` takes off, since a product may be of no such type: what `over` is there to tell.
pub fn both_divide(y: Pair, x: Pair) -> bool
    requires { WidePacked (paired y.first y.second) × WidePacked (paired x.first x.second) }
    ensures { result ≡ divides_wide (paired y.first y.second) (paired x.first x.second) }
{
    divides(y.first, x.first) && divides(y.second, x.second)
}

// The monomial x divided by y, which divides it: no field of either word borrows.
pub fn quotient(x: Pair, y: Pair) -> Pair
    requires { (y.first ≤ x.first) × (y.second ≤ x.second) }
    ensures { paired result.first result.second ≡ paired x.first x.second - paired y.first y.second }
{
    Pair {
        first: x.first - y.first,
        second: x.second - y.second,
    }
}

// The product of the monomials x and y: no field of either word carries.
pub fn product(x: Pair, y: Pair) -> Pair
    requires { WidePacked (paired x.first x.second) × WidePacked (paired y.first y.second) }
    ensures { paired result.first result.second ≡ paired x.first x.second + paired y.first y.second }
{
    Pair {
        first: x.first + y.first,
        second: x.second + y.second,
    }
}

// Whether that product has an exponent over 127: one of the twelve fields of the sums has its top bit set.
pub fn over(x: Pair, y: Pair) -> bool
    requires { WidePacked (paired x.first x.second) × WidePacked (paired y.first y.second) }
    ensures { result ≡ over_wide (paired x.first x.second) (paired y.first y.second) }
{
    let upper = (x.first + y.first) & TOPS;
    let lower = (x.second + y.second) & TOPS;
    upper + lower != 0
}
