// The geobucket in lent spaces, one operation at a time. Between the operations the caller keeps the
// state as eighteen numbers: the six heads, the six lengths, and the places of the free areas. In the
// spaces, keys stand for words. Each function asks what the one that it calls asks: whoever calls it
// keeps to that.
ghost use Rattle.std.specs.Prelude.{◌≡◌, [], ◌++◌, length};
ghost use Prim.Native.Nat.{compare};
ghost use Rattle.monomial.specs.Exponents.{order_of};
ghost use Rattle.monomial.specs.Words.{compare_words};
ghost use Rattle.polynomial.specs.Terms.{terms};
ghost use Rattle.geobucket.specs.Buckets.{add_compared, sum_compared};
ghost use Rattle.geobucket.specs.Search.{search};
ghost use Rattle.space.specs.Space.{AtReturn, Slices, Standing, buckets_in, dropped, no_buckets, spaces, words_in};
ghost use Rattle.buckets.specs.Adding.{WordAddition};
ghost use Rattle.buckets.specs.Summing.{Summation};
ghost use Rattle.search.specs.Searching.{Removal};
ghost use Rattle.probe.specs.States.{Settlement};

use buckets::add::add_polynomial;
use buckets::sum::full_sum;
use monomial::order::order_of;
use polynomial::ring::Ring;
use search::candidate::{Lead, LeadSearch};
use search::lead::{find_lead, remove_lead, take_lead};
use space::settle::settle;
use space::state::clear;

// Puts the lead's bucket, word and coefficient, or 6, 0 and 0 for none, and gives the comparisons.
// Kept: the C interface: a slice of three places, here and in the two functions on leads below.
fn put_lead(found: LeadSearch, lead: &mut [u64]) -> u64
    requires { length lead.old ≡ 3 }
    ensures { result ≡ found.count }
{
    let put = found.lead.unwrap_or(Lead {
        bucket: 6,
        word: 0,
        coef: 0,
    });
    lead[0] = put.bucket as u64;
    lead[1] = put.word;
    lead[2] = u64::from(put.coef);
    found.count
}

#[unsafe(no_mangle)]
pub extern "C" fn probe_buckets_empty(state: &mut [usize])
    requires { length state.old ≡ 18 }
    ensures { state.new ≡ no_buckets }
{
    clear(state);
}

// Gives the comparisons.
#[unsafe(no_mangle)]
pub extern "C" fn probe_buckets_add<'a>(
    order: u32,
    p: u32,
    state: &mut [usize],
    fw: &'a [u64],
    fc: &'a [u32],
    sw: &mut [u64],
    sc: &mut [u32],
    ww: &mut [u64],
    wc: &mut [u32],
) -> u64
    requires { WordAddition (order_of order) p (spaces state.old ww.old wc.old sw.old sc.old) fw.now fc.now × Slices ww.old wc.old sw.old sc.old }
    ensures { result ≡ length (add_compared (compare_words (order_of order)) p (terms fw.now fc.now) (words_in (order_of order) (spaces state.old ww.old wc.old sw.old sc.old))) }
{
    let order = order_of(order);
    add_polynomial(Ring { order, p }, state, fw, fc, sw, sc, ww, wc)
}

// Finds the lead and leaves it: its bucket (6 for zero), word and coefficient. Gives the comparisons.
#[unsafe(no_mangle)]
pub extern "C" fn probe_buckets_lead(
    order: u32,
    p: u32,
    state: &mut [usize],
    sw: &[u64],
    sc: &mut [u32],
    ww: &[u64],
    wc: &mut [u32],
    lead: &mut [u64],
) -> u64
    requires { Standing p (spaces state.old ww.now wc.old sw.now sc.old) × Slices ww.now wc.old sw.now sc.old × (length lead.old ≡ 3) }
    ensures { result ≡ length (search (compare_words (order_of order)) p (words_in (order_of order) (spaces state.old ww.now wc.old sw.now sc.old))).pairs }
{
    let order = order_of(order);
    let found = find_lead(Ring { order, p }, state, sw, sc, ww, wc);
    put_lead(found, lead)
}

// The same, with the lead removed.
#[unsafe(no_mangle)]
pub extern "C" fn probe_buckets_take_lead(
    order: u32,
    p: u32,
    state: &mut [usize],
    sw: &[u64],
    sc: &mut [u32],
    ww: &[u64],
    wc: &mut [u32],
    lead: &mut [u64],
) -> u64
    requires { Standing p (spaces state.old ww.now wc.old sw.now sc.old) × Slices ww.now wc.old sw.now sc.old × (length lead.old ≡ 3) }
    ensures { result ≡ length (search (compare_words (order_of order)) p (words_in (order_of order) (spaces state.old ww.now wc.old sw.now sc.old))).pairs }
{
    let order = order_of(order);
    let found = take_lead(Ring { order, p }, state, sw, sc, ww, wc);
    put_lead(found, lead)
}

// Removes the lead of a bucket that is not empty.
#[unsafe(no_mangle)]
pub extern "C" fn probe_buckets_take(state: &mut [usize], bucket: usize)
    requires { Removal state.old bucket }
    ensures { state.new ≡ dropped state.old bucket }
{
    remove_lead(state, bucket);
}

// Where the full sum lies in the bucket space, with keys for words, and its terms. Gives the
// comparisons.
#[unsafe(no_mangle)]
pub extern "C" fn probe_buckets_sum(
    p: u32,
    state: &mut [usize],
    sw: &mut [u64],
    sc: &mut [u32],
    ww: &mut [u64],
    wc: &mut [u32],
    at: &mut [usize],
) -> u64
    requires { Summation p state.old ww.old wc.old sw.old sc.old × (length at.old ≡ 2) }
    ensures { result ≡ length (sum_compared compare p [] (buckets_in state.old (ww.old ++ sw.old) (wc.old ++ sc.old))) }
{
    let r = full_sum(p, state, sw, sc, ww, wc);
    at[0] = r.head;
    at[1] = r.len;
    r.comparisons
}

#[unsafe(no_mangle)]
pub extern "C" fn probe_buckets_settle(
    order: u32,
    state: &[usize],
    sw: &mut [u64],
    sc: &mut [u32],
    ww: &mut [u64],
    wc: &mut [u32],
)
    requires { Settlement state.now (length sw.old) (length sc.old) (length ww.old) (length wc.old) }
    ensures { AtReturn (words_in (order_of order) (spaces state.now ww.old wc.old sw.old sc.old)) sw.new sc.new ww.new wc.new }
{
    settle::<u64>(order_of(order), state, sw, sc, ww, wc);
}
