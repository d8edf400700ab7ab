// The word of given exponents, and the exponents of a word, one by one.
ghost use Rattle.std.specs.Prelude.{◌≡◌, ◌∷◌, [], ◌≤◌, ◌<◌, length, get_or};
ghost use Rattle.monomial.specs.Layout.{of_bytes, low_bit, word_of, fields, Below, WeightsFit};

use crate::order::Order;

// The lowest bit of the field of variable i, from 0.
// Kept: `i < 6`, here and in `put_exponent` of `listing_lines`: i comes from loops and from C (`probe_exponent`) as
// a plain number. A type of such numbers would be made for each call and opened here at once, for the shift.
fn low_bit(order: Order, i: u32) -> u32
    requires { i < 6 }
    ensures { (result ≡ low_bit order i) × (result ≤ 40) }
{
    match order {
        Order::Lex | Order::DegLex => 40 - 8 * i,
        Order::DegRevLex => 8 * i,
    }
}

// The exponent of variable i, from 0, in the word w.
pub fn exponent(order: Order, w: u64, i: u32) -> u8
    requires { i < 6 }
    ensures { result ≡ get_or (fields order w) i 0 }
{
    ((w >> low_bit(order, i)) % 256) as u8
}

// The weights, x1's first, as a word: each lies where the field of its variable does. It depends on no
// monomial, and is made once for many.
pub fn weight_word(order: Order, weights: &[u32]) -> u64
    requires { WeightsFit weights.now }
    ensures { fields order result ≡ weights.now }
{
    let &[x1, x2, x3, x4, x5, x6] = weights else {
        unreachable!()
    };
    match order {
        Order::Lex | Order::DegLex => of_bytes(x6, x5, x4, x3, x2, x1),
        Order::DegRevLex => of_bytes(x1, x2, x3, x4, x5, x6),
    }
}

// The word with these six bytes, from the lowest up.
fn of_bytes(a: u32, b: u32, c: u32, d: u32, e: u32, f: u32) -> u64
    requires { Below 256 (a ∷ b ∷ c ∷ d ∷ e ∷ f ∷ []) }
    ensures { result ≡ of_bytes (a ∷ b ∷ c ∷ d ∷ e ∷ f ∷ []) }
{
    u64::from_le_bytes([a as u8, b as u8, c as u8, d as u8, e as u8, f as u8, 0, 0])
}

// The word of the monomial with these exponents, and weights as `weight_word` gives them. An exponent
// over 127 makes a word outside the layout.
pub fn word_of(order: Order, weights: u64, exps: &[u8]) -> u64
    requires { (length exps.now ≤ 6) × Below 18 (fields order weights) }
    ensures { result ≡ word_of order (fields order weights) exps.now }
{
    let mut word: u64 = 0;
    for (i, e) in exps.iter().enumerate() {
        let e = u64::from(*e);
        let v = u64::from(exponent(order, weights, i as u32));
        word += v * e * 0x1_0000_0000_0000 + (e << low_bit(order, i as u32));
    }
    word
}
