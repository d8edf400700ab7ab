// Monomials in one word. An order is its number, 1 to 3; any other number counts as 3. Where the
// slice has over 6 places, the weights do not fit, a word is not packed, or there is no quotient, the
// answer is REFUSED.
ghost use Rattle.std.specs.Prelude.{◌≡◌, cond, ◌&&◌, ◌-◌, leb, ltb, length, get_or};
ghost use Rattle.limits.specs.Limits.{largest_weight};
ghost use Rattle.monomial.specs.Exponents.{order_of};
ghost use Rattle.monomial.specs.Layout.{word_of, fields, in_layout};
ghost use Rattle.monomial.specs.Words.{key_of, from_key, compare_words, answer, divides_word};
ghost use Rattle.probe.specs.Answers.{packed, comparison_number, weights_fit};

use crate::weights::weights_fit;
use limits::{LARGEST_WEIGHT, MOST_VARIABLES};
use monomial::exponents::{exponent, weight_word, word_of};
use monomial::layout::Layout;
use monomial::order::order_of;
use monomial::word::{TOPS, divides, quotient};
use std::cmp::Ordering;

// Kept: the C interface: numbers for answers, here and below, as C has no Option: REFUSED for none, and for
// the same 2 in probe_divides, whose answers are 0 and 1, and 256 in probe_exponent.
const REFUSED: u64 = 0xffff_ffff_ffff_ffff;

#[unsafe(no_mangle)]
pub extern "C" fn probe_key(order: u32, w: u64) -> u64
    ensures { result ≡ key_of (order_of order) w }
{
    order_of(order).key(w)
}

// The word that has a key.
#[unsafe(no_mangle)]
pub extern "C" fn probe_word(order: u32, key: u64) -> u64
    ensures { result ≡ from_key (order_of order) key }
{
    order_of(order).word(key)
}

// 0 where x is smaller than y, 1 where they are the same, 2 where x is larger.
#[unsafe(no_mangle)]
pub extern "C" fn probe_compare(order: u32, x: u64, y: u64) -> u32
    ensures { result ≡ comparison_number (answer (compare_words (order_of order) x y)) }
{
    comparison_number(order_of(order).compare(x, y))
}

// Kept: the C interface: 0, 1 and 2, where a cast of `Ordering` gives -1, 0 and 1.
fn comparison_number(c: Ordering) -> u32
    ensures { result ≡ comparison_number c }
{
    match c {
        Ordering::Less => 0,
        Ordering::Equal => 1,
        Ordering::Greater => 2,
    }
}

// False also where n is over 6, or the weights are not six or one is over 16.
#[unsafe(no_mangle)]
pub extern "C" fn probe_in_layout(order: u32, n: u32, weights: &[u32], w: u64) -> bool
    ensures { result ≡ (leb n 6 && (weights_fit largest_weight weights.now && in_layout (order_of order) n weights.now w)) }
{
    if n > MOST_VARIABLES {
        return false;
    }
    if !weights_fit(weights, LARGEST_WEIGHT) {
        return false;
    }
    let order = order_of(order);
    Layout::new(order, n, weights).holds(w)
}

// Whether y divides x: 0 or 1, and 2 where a word is not packed.
#[unsafe(no_mangle)]
pub extern "C" fn probe_divides(y: u64, x: u64) -> u32
    ensures { result ≡ cond (packed y && packed x) (cond (divides_word y x) 1 0) 2 }
{
    if !both_packed(y, x) {
        return 2;
    }
    u32::from(divides(y, x))
}

#[unsafe(no_mangle)]
pub extern "C" fn probe_quotient(x: u64, y: u64) -> u64
    ensures { result ≡ cond (leb y x) (x - y) 18446744073709551615 }
{
    if y > x {
        return REFUSED;
    }
    quotient(x, y)
}

// The weights may go to 17: one over 16 is kept as that until it is refused.
#[unsafe(no_mangle)]
pub extern "C" fn probe_word_of(order: u32, weights: &[u32], exps: &[u8]) -> u64
    ensures { result ≡ cond (leb (length exps.now) 6 && weights_fit 17 weights.now) (word_of (order_of order) weights.now exps.now) 18446744073709551615 }
{
    if exps.len() > MOST_VARIABLES as usize {
        return REFUSED;
    }
    if !weights_fit(weights, LARGEST_WEIGHT + 1) {
        return REFUSED;
    }
    let order = order_of(order);
    word_of(order, weight_word(order, weights), exps)
}

// The exponent of variable i, from 0, or 256 where there is no such variable.
#[unsafe(no_mangle)]
pub extern "C" fn probe_exponent(order: u32, w: u64, i: u32) -> u32
    ensures { result ≡ cond (ltb i 6) (get_or (fields (order_of order) w) i 0) 256 }
{
    if i >= MOST_VARIABLES {
        return 256;
    }
    u32::from(exponent(order_of(order), w, i))
}

fn both_packed(x: u64, y: u64) -> bool
    ensures { result ≡ (packed x && packed y) }
{
    is_packed(x) && is_packed(y)
}

// Whether no field's top bit is set, and bit 63 is not.
fn is_packed(w: u64) -> bool
    ensures { result ≡ packed w }
{
    w & TOPS == 0 && w < 0x8000_0000_0000_0000
}
