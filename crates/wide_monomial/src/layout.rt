// Which two words are of the layout.
ghost use Rattle.std.specs.Prelude.{◌≡◌, ◌++◌, ◌≤◌};
ghost use Rattle.monomial.specs.Layout.{fields, beyond_bits};
ghost use Rattle.wide_monomial.specs.Wide.{paired, in_first, in_second, WideWeights, TestsClear, TestsWide};

use crate::pair::Pair;
use monomial::exponents::weight_word;
use monomial::layout::{beyond_bits, weighted_sum};
use monomial::order::Order;
use monomial::word::TOPS;

// The bits of the fields of variables beyond n, in each word. They depend on no monomial, and are made
// once for many.
pub fn wide_beyond(order: Order, n: u32) -> Pair
    requires { n ≤ 12 }
    ensures { (result.first ≡ beyond_bits order (in_first n)) × (result.second ≡ beyond_bits order (in_second n)) }
{
    Pair {
        first: beyond_bits(order, n.min(6)),
        second: beyond_bits(order, n.saturating_sub(6)),
    }
}

// The twelve weights, x1's first, as two words: each lies where the field of its variable does.
pub fn wide_weights(order: Order, weights: &[u32]) -> Pair
    requires { WideWeights weights.now }
    ensures { fields order result.first ++ fields order result.second ≡ weights.now }
{
    Pair {
        first: weight_word(order, &weights[..6]),
        second: weight_word(order, &weights[6..12]),
    }
}

// Whether the fields of w have their top bits 0, and those beyond are 0: `beyond` is what `beyond_bits`
// gives.
fn clear(beyond: u64, w: u64) -> bool
    ensures { TestsClear beyond w result }
{
    w & TOPS == 0 && w & beyond == 0
}

// Whether two words are of the layout. `beyond` is what `wide_beyond` gives for the order and number of
// variables, and `weights` what `wide_weights` gives; of others nothing is promised.
pub fn in_wide_layout(beyond: Pair, weights: Pair, w: Pair) -> bool
    ensures { TestsWide beyond.first beyond.second weights.first weights.second (paired w.first w.second) result }
{
    clear(beyond.first, w.first)
        && clear(beyond.second, w.second)
        && w.second < 0x1_0000_0000_0000
        && w.first / 0x1_0000_0000_0000
            == weighted_sum(weights.first, w.first) + weighted_sum(weights.second, w.second)
}
