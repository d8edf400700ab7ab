// The multiple of a lent polynomial by a term.
ghost use Rattle.std.specs.Prelude.{◌≡◌, map, ◌+◌, ◌<◌, ◌≤◌, length};
ghost use Rattle.std.proofs.lemmas.List.Edits.{sets};
ghost use Rattle.residue.specs.Modular.{product};
ghost use Rattle.residue.specs.Share.{Prepared};
ghost use Rattle.monomial.specs.Layout.{Below};
ghost use Rattle.monomial.specs.Words.{key_of, Packed};
ghost use Rattle.multiple.specs.Multiplying.{AllPacked, over_one, any_over, highest_word, Raised, Multiplicands, Multiplied};

use monomial::order::Order;
use monomial::word::TOPS;
use residue::factor::Factor;

// Whether a product of the monomial q with one of the words has an exponent over 127.
// Kept: `Packed` and `AllPacked words`, here and below: C lends the words as plain numbers, which are no slice of
// another type without a copy, and a type for q alone would leave `AllPacked`.
pub fn any_over(q: u64, words: &[u64]) -> bool
    requires { Packed q × AllPacked words.now }
    ensures { result ≡ any_over q words.now }
{
    over(q, highest(words))
}

// Whether the product of two monomials has an exponent over 127: no field of the sum carries into the
// next, and one is over 127 where its top bit is set. With the highest exponents of several words for
// one of them, it is whether a product with one of these has (theorem `any-over`).
pub fn over(q: u64, high: u64) -> bool
    requires { Packed q × Packed high }
    ensures { result ≡ over_one q high }
{
    (q + high) & TOPS != 0
}

// The highest exponents of the words, with no degree: field by field, the largest.
pub fn highest(words: &[u64]) -> u64
    requires { AllPacked words.now }
    ensures { result ≡ highest_word words.now }
{
    let mut high: u64 = 0;
    for w in words {
        high = raise(high, *w);
    }
    high
}

// The exponents h, each raised to that of w where this is larger. With each field's top bit set in w,
// no field borrows from the next; the bit stays set where the field of w is not below that of h, and
// there what it is above is added.
fn raise(h: u64, w: u64) -> u64
    requires { Packed h × (h < 281474976710656) × Packed w }
    ensures { Raised h w result }
{
    let up = w % 0x1_0000_0000_0000 + TOPS - h;
    let set = up & TOPS;
    let mask = set - set / 128;
    h + (up & mask)
}

// Puts the polynomial times factor·q, as keys and coefficients, into the output from place `to` on: a
// loop for the keys and one for the coefficients, so that each makes several at once.
// Kept: eight parameters, four of them slices. The two of the output are `&mut`: of a struct of these a contract
// would have to say as well that it holds the same borrows at return. And `to` is a number, here and below, with a
// clause that the places are there: a type of slice and place would be made for this call alone.
pub fn put_multiple(
    order: Order,
    factor: Factor,
    q: u64,
    words: &[u64],
    coefs: &[u32],
    ow: &mut [u64],
    oc: &mut [u32],
    to: usize,
)
    requires { Multiplicands factor q words.now coefs.now to ow.old oc.old }
    ensures { Multiplied order factor.prime factor.value q words.now coefs.now to ow.old oc.old ow.new oc.new }
{
    put_products(order, q, words, ow, to);
    put_scaled(factor, coefs, oc, to);
}

// Puts the keys of the products of the monomial q with the words.
fn put_products(order: Order, q: u64, words: &[u64], ow: &mut [u64], to: usize)
    requires { Packed q × AllPacked words.now × (to + length words.now ≤ length ow.old) }
    ensures { ow.new ≡ sets ow.old to (map (λ w. key_of order (q + w)) words.now) }
{
    for (i, w) in words.iter().enumerate() {
        ow[to + i] = order.key(q + *w);
    }
}

// Puts the products of the factor with the coefficients.
// Kept: may not change: `Prepared factor` stays a clause: docs/changes/4-larger-primes.md names `Factor::times` by what
// it asks, so `Factor` gets no invariant.
fn put_scaled(factor: Factor, coefs: &[u32], oc: &mut [u32], to: usize)
    requires { Prepared factor × Below factor.prime coefs.now × (to + length coefs.now ≤ length oc.old) }
    ensures { oc.new ≡ sets oc.old to (map (λ c. product factor.prime factor.value c) coefs.now) }
{
    for (j, c) in coefs.iter().enumerate() {
        oc[to + j] = factor.times(*c);
    }
}
