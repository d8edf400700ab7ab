// Which words are of the layout.
ghost use Rattle.std.specs.Prelude.{◌≡◌, ◌≤◌, ◌<◌, ◌%◌, ◌*◌};
ghost use Rattle.monomial.specs.Exponents.{weighted};
ghost use Rattle.monomial.specs.Layout.{bytes, fields, beyond_bits, TestsLayout, WeightsFit};

use crate::exponents::weight_word;
use crate::order::Order;
use crate::word::TOPS;

// The six fields.
pub(crate) const FIELDS: u64 = 0xffff_ffff_ffff;

// What words of the layout have: it depends on no word, and is made once for many.
#[derive(Clone, Copy)]
pub struct Layout {
    pub beyond: u64, // the bits of the fields of variables beyond n: 0 in each word
    pub weights: u64, // each weight where the field of its variable lies: the degree is by them
}

impl Layout {
    // In an order, with n variables and their weights.
    pub fn new(order: Order, n: u32, weights: &[u32]) -> Layout
        requires { (n ≤ 6) × WeightsFit weights.now }
        ensures { (result.beyond ≡ beyond_bits order n) × (fields order result.weights ≡ weights.now) }
    {
        Layout {
            beyond: beyond_bits(order, n),
            weights: weight_word(order, weights),
        }
    }

    // Whether w is of the layout: refusal 5 where it is not.
    pub fn holds(self, w: u64) -> bool
        ensures { TestsLayout self.beyond self.weights w result }
    {
        if w & TOPS != 0 {
            return false;
        }
        if w & self.beyond != 0 {
            return false;
        }
        w / 0x1_0000_0000_0000 == weighted_sum(self.weights, w)
    }
}

// The bits of the fields of variables beyond n: in lp and Dp they lie below the others, in dp above.
pub fn beyond_bits(order: Order, n: u32) -> u64
    requires { n ≤ 6 }
    ensures { result ≡ beyond_bits order n }
{
    let low = FIELDS >> (8 * n);
    match order {
        Order::Lex | Order::DegLex => low,
        Order::DegRevLex => low << (8 * n),
    }
}

// The sum of the six fields of w, each times the field of `weights` at its place.
pub fn weighted_sum(weights: u64, w: u64) -> u64
    ensures { result ≡ weighted (bytes 6 weights) (bytes 6 w) }
{
    let mut sum: u64 = 0;
    for i in 0..6u32 {
        sum += byte_product(weights >> (8 * i), w >> (8 * i));
    }
    sum
}

// The product of the two lowest bytes.
fn byte_product(x: u64, y: u64) -> u64
    ensures { (result ≡ x % 256 * (y % 256)) × (result < 65536) }
{
    x % 0x100 * (y % 0x100)
}
