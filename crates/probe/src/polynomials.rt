// Polynomials in lent slices: their opening check, whole and part by part, starts and parts, their
// merge, and the multiple by a term. An order is its number, 1 to 3; any other number counts as 3.
// The merge and the multiple ask what the functions that they call ask: whoever calls them tests it
// first.
ghost use Rattle.std.specs.Prelude.{◌≡◌, cond, false, length, get_or};
ghost use Prim.Native.Nat.{◌+◌, compare};
ghost use Rattle.monomial.specs.Exponents.{order_of};
ghost use Rattle.monomial.specs.Words.{Packed};
ghost use Rattle.polynomial.specs.Settings.{setting_of};
ghost use Rattle.polynomial.specs.Terms.{terms};
ghost use Rattle.polynomial.specs.Opening.{polynomial_refusal, starts_good, part_of};
ghost use Rattle.polynomial.specs.Checking.{carried_by, polynomial_on};
ghost use Rattle.merge_common.specs.Lent.{part};
ghost use Rattle.merge_common.specs.Placing.{PlacedIn};
ghost use Rattle.merge_areas.specs.Areas.{Areas};
ghost use Rattle.multiple.specs.Multiplying.{AllPacked, any_over, Multiplied};
ghost use Rattle.probe.specs.Lending.{checkable, numbers, part_there, Factors};

use crate::weights::weights_fit;
use limits::{LARGEST_WEIGHT, MOST_VARIABLES};
use merge_areas::merge_areas;
use merge_common::merging::Placed;
use monomial::order::order_of;
use multiple::multiple::{any_over, put_multiple};
use polynomial::check::{Checking, check, check_on};
use polynomial::part::part_of;
use polynomial::setting::setting_of;
use polynomial::starts::starts_good;
use polynomial::terms::Terms;
use residue::factor::Factor;

// Kept: the C interface: numbers for answers, here and below, as C has neither Option nor Result: NO_WORD,
// NO_COEF and NOT_CHECKED for none, and 0 in probe_check for a polynomial that is not refused.
const NO_WORD: u64 = 0xffff_ffff_ffff_ffff;

const NO_COEF: u32 = 0xffff_ffff;

const NOT_CHECKED: u32 = 0xffff_ffff;

// The refusal of a polynomial, 0 for none, or NOT_CHECKED where it cannot be checked.
#[unsafe(no_mangle)]
pub extern "C" fn probe_check(
    order: u32,
    n: u32,
    weights: &[u32],
    p: u32,
    words: &[u64],
    coefs: &[u32],
) -> u32
    ensures { result ≡ cond (checkable n weights.now (length words.now) (length coefs.now)) (polynomial_refusal (setting_of p order n weights.now) (terms words.now coefs.now)) 4294967295 }
{
    if !is_checkable(n, weights, words.len(), coefs.len()) {
        return NOT_CHECKED;
    }
    match check(setting_of(p, order, n, weights), Terms { words, coefs }) {
        Ok(()) => 0,
        Err(refusal) => refusal.number(),
    }
}

// The check carried on over a part from four numbers; NOT_CHECKED, 0, false and 0 where it cannot be
// checked.
#[unsafe(no_mangle)]
pub extern "C" fn probe_check_on(
    order: u32,
    n: u32,
    weights: &[u32],
    p: u32,
    words: &[u64],
    coefs: &[u32],
    stop: u32,
    late: u32,
    seen: bool,
    last: u64,
) -> Checking
    ensures { carried_by result ≡ cond (checkable n weights.now (length words.now) (length coefs.now)) (polynomial_on (setting_of p order n weights.now) (numbers stop late seen last) (terms words.now coefs.now)) (numbers 4294967295 0 false 0) }
{
    if !is_checkable(n, weights, words.len(), coefs.len()) {
        return Checking {
            stop: NOT_CHECKED,
            late: 0,
            seen: false,
            last: 0,
        };
    }
    let from = Checking {
        stop,
        late,
        seen,
        last,
    };
    check_on(
        setting_of(p, order, n, weights),
        Terms { words, coefs },
        from,
    )
}

// Whether a polynomial in n variables with these weights, and so many words and coefficients, can be
// checked: n and each weight are not over their limit, there are six weights, and the lengths agree.
#[tactic(auto, unfolding(crate::specs::Lending::checkable))]
fn is_checkable(n: u32, weights: &[u32], words: usize, coefs: usize) -> bool
    ensures { result ≡ checkable n weights.now words coefs }
{
    n <= MOST_VARIABLES && weights_fit(weights, LARGEST_WEIGHT) && coefs == words
}

#[unsafe(no_mangle)]
pub extern "C" fn probe_starts_good(starts: &[usize], len: usize) -> bool
    ensures { result ≡ starts_good starts.now len }
{
    starts_good(starts, len)
}

// Word i of polynomial k, or NO_WORD where there is none.
#[unsafe(no_mangle)]
pub extern "C" fn probe_part_word(words: &[u64], starts: &[usize], k: usize, i: usize) -> u64
    ensures { result ≡ cond (part_there starts.now k (length words.now)) (get_or (part_of starts.now k words.now) i 18446744073709551615) 18446744073709551615 }
{
    if !is_part_there(starts, k, words.len()) {
        return NO_WORD;
    }
    part_of(words, starts, k).get(i).copied().unwrap_or(NO_WORD)
}

// Coefficient i of polynomial k, or NO_COEF where there is none.
#[unsafe(no_mangle)]
pub extern "C" fn probe_part_coef(coefs: &[u32], starts: &[usize], k: usize, i: usize) -> u32
    ensures { result ≡ cond (part_there starts.now k (length coefs.now)) (get_or (part_of starts.now k coefs.now) i 4294967295) 4294967295 }
{
    if !is_part_there(starts, k, coefs.len()) {
        return NO_COEF;
    }
    part_of(coefs, starts, k).get(i).copied().unwrap_or(NO_COEF)
}

// Whether polynomial k has both starts, which rise and end within len.
#[tactic(auto, unfolding(crate::specs::Lending::part_there))]
fn is_part_there(starts: &[usize], k: usize, len: usize) -> bool
    ensures { result ≡ part_there starts.now k len }
{
    k < starts.len() && k + 1 < starts.len() && starts[k] <= starts[k + 1] && starts[k + 1] <= len
}

// Merges the n terms at place a with the m terms at place b, both not empty, with keys for words, to the
// places from `to` up to to + n + m, where the result ends.
#[unsafe(no_mangle)]
pub extern "C" fn probe_merge_areas(
    p: u32,
    ww: &mut [u64],
    wc: &mut [u32],
    a: usize,
    n: usize,
    b: usize,
    m: usize,
    to: usize,
) -> Placed
    requires { Areas p ww.old wc.old a n b m to }
    ensures { PlacedIn compare p (terms (part a n ww.old) (part a n wc.old)) (terms (part b m ww.old) (part b m wc.old)) to (to + (n + m)) ww.old wc.old ww.new wc.new result × (result.head + result.len ≡ to + (n + m)) }
{
    merge_areas::<u64>(p, ww, wc, a, n, b, m, to)
}

// Whether a product of the monomial q with one of the words has an exponent over 127.
// Kept: the C interface: `Packed q` and `AllPacked words` as clauses, as C lends the words as plain numbers.
#[unsafe(no_mangle)]
pub extern "C" fn probe_any_over(q: u64, words: &[u64]) -> bool
    requires { Packed q × AllPacked words.now }
    ensures { result ≡ any_over q words.now }
{
    any_over(q, words)
}

// Puts the polynomial times c·q modulo p, with keys for words, into the output from place `to` on.
#[unsafe(no_mangle)]
pub extern "C" fn probe_put_multiple(
    order: u32,
    p: u32,
    c: u32,
    q: u64,
    words: &[u64],
    coefs: &[u32],
    ow: &mut [u64],
    oc: &mut [u32],
    to: usize,
)
    requires { Factors p c q words.now coefs.now to ow.old oc.old }
    ensures { Multiplied (order_of order) p c q words.now coefs.now to ow.old oc.old ow.new oc.new }
{
    put_multiple(
        order_of(order),
        Factor::new(c, p),
        q,
        words,
        coefs,
        ow,
        oc,
        to,
    );
}
