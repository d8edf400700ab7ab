// The two words of given exponents, and the exponents of two words, one by one.
ghost use Rattle.std.specs.Prelude.{◌≡◌, ◌++◌, ◌≤◌, ◌<◌, length, get_or};
ghost use Rattle.monomial.specs.Layout.{fields, Below};
ghost use Rattle.wide_monomial.specs.Wide.{paired, wide_fields, wide_of};

use crate::pair::Pair;
use monomial::exponents::{exponent, word_of};
use monomial::order::Order;

// The exponent of variable i, from 0, in the monomial of two words.
pub fn wide_exponent(order: Order, w: Pair, i: u32) -> u8
    requires { i < 12 }
    ensures { result ≡ get_or (wide_fields order (paired w.first w.second)) i 0 }
{
    if i < 6 {
        return exponent(order, w.first, i);
    }
    exponent(order, w.second, i - 6)
}

// The two words of the monomial with these exponents, and weights as `wide_weights` gives them. The degree
// of x7 to x12 goes to the first word. An exponent over 127 makes a monomial outside the layout.
pub fn wide_words(order: Order, weights: Pair, exps: &[u8]) -> Pair
    requires { (length exps.now ≤ 12) × Below 18 (fields order weights.first) × Below 18 (fields order weights.second) }
    ensures { paired result.first result.second ≡ wide_of order (fields order weights.first ++ fields order weights.second) exps.now }
{
    if exps.len() <= 6 {
        let first = word_of(order, weights.first, exps);
        return Pair { first, second: 0 };
    }
    let upper = word_of(order, weights.first, &exps[..6]);
    let lower = word_of(order, weights.second, &exps[6..]);
    let degree = lower / 0x1_0000_0000_0000 * 0x1_0000_0000_0000;
    Pair {
        first: upper + degree,
        second: lower % 0x1_0000_0000_0000,
    }
}
