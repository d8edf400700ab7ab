// A step that divides its lead.
ghost use Rattle.std.specs.Prelude.{map, ◌≤◌, length};
ghost use Rattle.limits.specs.Limits.{most_terms};
ghost use Rattle.monomial.specs.Words.{key_of};
ghost use Rattle.polynomial.specs.Terms.{terms, words, coefs};
ghost use Rattle.space.specs.Space.{spaces, Slices};
ghost use Rattle.buckets.specs.Last.{MergeLast, LastMerged, last_at};
ghost use Rattle.reducer.specs.Dividing.{Dividing, Divided, TailAddition, TailAdded, Times, times_tail};

use buckets::add::{FREE, MOST_SMALL, add_small};
use buckets::last::merge_last;
use call::state::State;
use divisors::highest::tail_highest;
use divisors::inverse::{factor_by, lead_inverse};
use divisors::kept::Cache;
use limits::MOST_TERMS;
use monomial::word::quotient;
use multiple::multiple::{over, put_multiple};
use polynomial::part::Polynomials;
use polynomial::ring::Ring;
use refusal::Refusal;
use residue::arithmetic::negate;
use residue::factor::Factor;
use search::candidate::Lead;
use search::lead::remove_lead;
use space::state::held;

// Divides the lead by divisor k: its tail times −c divided by its lead coefficient, and times the
// quotient monomial, is added. Refused with 12 where a product has an exponent over 127, then with 11
// where the buckets would hold over 4,096 terms; the lead is not counted.
pub fn divide(
    ring: Ring,
    ps: Polynomials,
    k: usize,
    s: State,
    lead: Lead,
    kept: &mut Cache,
    b: &mut [usize],
    bw: &mut [u64],
    bc: &mut [u32],
    ww: &mut [u64],
    wc: &mut [u32],
) -> State
    requires { Dividing ring.order ring.p ps.words.now ps.coefs.now ps.starts.now k s lead kept.old (spaces b.old ww.old wc.old bw.old bc.old) × Slices ww.old wc.old bw.old bc.old }
    ensures { Divided ring.order ring.p ps.entry.words.now ps.entry.coefs.now ps.entry.starts.now k s lead (spaces b.old ww.old wc.old bw.old bc.old) result kept.new (spaces b.new ww.new wc.new bw.new bc.new) }
{
    let g = ps.part(k);
    let q = quotient(lead.word, g.words[0]);
    let tw = &g.words[1..];
    let tc = &g.coefs[1..];
    if over(q, tail_highest(tw, k, kept)) {
        return s.halt(Refusal::ExponentOver);
    }
    if held(b) - 1 + tw.len() > MOST_TERMS {
        return s.halt(Refusal::TooManyTerms);
    }
    let inverse = lead_inverse(ring.p, ps, k, kept);
    let factor = factor_by(ring.p, negate(lead.coef, ring.p), inverse);
    remove_lead(b, lead.bucket);
    let r = s.finish();
    add_tail(ring, factor, q, tw, tc, r, b, bw, bc, ww, wc)
}

// Adds the tail times factor·q. Where one of buckets 0 to 4 takes it, it is made past the areas of the
// work space.
// Kept: this and `add_large` beside `put_and_add` and `add_large` of `buckets::add`, which fill otherwise. With the
// filling as a closure its contract (`F.post`) would have to say what it leaves in two lent slices, in the work
// space from `FREE` on and in local arrays alike; and `add_large` there fills no coefficients, but hands on those that
// are lent to it.
fn add_tail(
    ring: Ring,
    factor: Factor,
    q: u64,
    tw: &[u64],
    tc: &[u32],
    s: State,
    b: &mut [usize],
    bw: &mut [u64],
    bc: &mut [u32],
    ww: &mut [u64],
    wc: &mut [u32],
) -> State
    requires { TailAddition ring.order ring.p factor q tw.now tc.now s (spaces b.old ww.old wc.old bw.old bc.old) × Slices ww.old wc.old bw.old bc.old }
    ensures { TailAdded ring.order ring.p factor q tw.now tc.now s (spaces b.old ww.old wc.old bw.old bc.old) result (spaces b.new ww.new wc.new bw.new bc.new) }
{
    let n = tw.len();
    if n > MOST_SMALL {
        let r = add_large(ring, factor, q, tw, tc, b, bw, bc);
        return s.compare(r).bring(n);
    }
    put_multiple(ring.order, factor, q, tw, tc, ww, wc, FREE);
    let r = add_small(ring.p, b, n, bw, bc, ww, wc);
    s.compare(r).bring(n)
}

// Merges the tail times factor·q into the last bucket, and gives the comparisons. Its local arrays are large, so
// that they are to be made only where it is called.
// Kept: fixed arrays of the most terms, as the engine has no heap.
#[inline(never)]
fn add_large(
    ring: Ring,
    factor: Factor,
    q: u64,
    tw: &[u64],
    tc: &[u32],
    b: &mut [usize],
    bw: &mut [u64],
    bc: &mut [u32],
) -> u64
    requires { Times factor q tw.now tc.now × (length tw.now ≤ most_terms) × MergeLast ring.p b.old (map (key_of ring.order) (words (times_tail factor q tw.now tc.now))) (coefs (times_tail factor q tw.now tc.now)) bw.old bc.old }
    ensures { LastMerged ring.p b.old (terms (map (key_of ring.order) (words (times_tail factor q tw.now tc.now))) (coefs (times_tail factor q tw.now tc.now))) (last_at b.old bw.old bc.old) bw.new bc.new b.new result }
{
    let mut keys = [0u64; MOST_TERMS];
    let mut coefs = [0u32; MOST_TERMS];
    put_multiple(ring.order, factor, q, tw, tc, &mut keys, &mut coefs, 0);
    let n = tw.len();
    merge_last(ring.p, b, &keys[0..n], &coefs[0..n], bw, bc)
}
