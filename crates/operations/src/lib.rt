// The operations of a run, each with its refusal.
#![tactic(auto)]

ghost use Rattle.std.specs.Prelude.{◌≡◌, ◌<◌, MatchOption};
ghost use Rattle.limits.specs.Limits.{most_operations};
ghost use Rattle.monomial.specs.Words.{compare_words};
ghost use Rattle.polynomial.specs.Terms.{terms};
ghost use Rattle.call.specs.Lending.{Addend, Output};
ghost use Rattle.run_outcome.specs.Runs.{leads, sums};
ghost use Rattle.space.specs.Space.{spaces, Slices};
ghost use Rattle.operations.specs.States.{Counting, Operated, AddOperated};

use buckets::add::add_polynomial;
use buckets::sum::full_sum;
use call::state::State;
use limits::MOST_TERMS;
use merge_common::copy::put;
use merge_common::keys::put_words_of;
use polynomial::ring::Ring;
use refusal::Refusal;
use search::candidate::Lead;
use search::lead::take_lead;
use space::state::held;

// Adds the polynomial f, or refuses with 11 where the buckets would hold over 4,096 terms.
// Kept: `s.finished < most_operations`, here and below, not a ghost field of State: each operation adds one to it,
// and a reduction counts the leads removed in the same field, up to a limit of its own.
// Kept: the lent slices as parameters of their own, here and below: where a slice is a `&mut` field of a struct and
// is passed on as `&[T]`, as `b` is to `held`, a proof knows its length afterwards and no element, so each operation
// would take the struct apart into these slices first.
pub fn add_operation(
    ring: Ring,
    s: State,
    b: &mut [usize],
    fw: &[u64],
    fc: &[u32],
    bw: &mut [u64],
    bc: &mut [u32],
    ww: &mut [u64],
    wc: &mut [u32],
) -> State
    requires { Counting ring.order ring.p s (spaces b.old ww.old wc.old bw.old bc.old) × Addend (compare_words ring.order) ring.p fw.now fc.now × Slices ww.old wc.old bw.old bc.old × (s.finished < most_operations) }
    ensures { AddOperated ring.order ring.p (terms fw.now fc.now) s (spaces b.old ww.old wc.old bw.old bc.old) result (spaces b.new ww.new wc.new bw.new bc.new) }
{
    if held(b) + fw.len() > MOST_TERMS {
        return s.halt(Refusal::TooManyTerms);
    }
    let r = add_polynomial(ring, b, fw, fc, bw, bc, ww, wc);
    s.compare(r).bring(fw.len()).finish()
}

// Finds the lead, puts it into the next output place and removes it, or refuses with 10 where there
// is no place.
pub fn lead_operation(
    ring: Ring,
    s: State,
    b: &mut [usize],
    bw: &[u64],
    bc: &mut [u32],
    ww: &[u64],
    wc: &mut [u32],
    ow: &mut [u64],
    oc: &mut [u32],
) -> State
    requires { Counting ring.order ring.p s (spaces b.old ww.now wc.old bw.now bc.old) × Slices ww.now wc.old bw.now bc.old × Output s.places ow.old oc.old × (s.finished < most_operations) }
    ensures { Operated ring.order ring.p leads s (spaces b.old ww.now wc.old bw.now bc.old) ow.old oc.old result (spaces b.new ww.now wc.new bw.now bc.new) ow.new oc.new }
{
    let at = s.places;
    if at >= ow.len() {
        return s.halt(Refusal::NoOutput);
    }
    let found = take_lead(ring, b, bw, bc, ww, wc);
    let (word, coef) = place_of(found.lead);
    ow[at] = word;
    oc[at] = coef;
    s.compare(found.count)
        .give(usize::from(coef != 0), 1)
        .finish()
}

// The word and the coefficient of the lead, or zero for both where there is none.
fn place_of(lead: Option<Lead>) -> (u64, u32)
    ensures { MatchOption lead ((result.0 ≡ 0) × (result.1 ≡ 0)) (λ l. (result.0 ≡ l.word) × (result.1 ≡ l.coef)) }
{
    match lead {
        Some(lead) => (lead.word, lead.coef),
        None => (0, 0),
    }
}

// Gives the full sum out, with a zero place past it, or refuses with 10 where the output has too few
// places for all terms held and one more.
pub fn sum_operation(
    ring: Ring,
    s: State,
    b: &mut [usize],
    bw: &mut [u64],
    bc: &mut [u32],
    ww: &mut [u64],
    wc: &mut [u32],
    ow: &mut [u64],
    oc: &mut [u32],
) -> State
    requires { Counting ring.order ring.p s (spaces b.old ww.old wc.old bw.old bc.old) × Slices ww.old wc.old bw.old bc.old × Output s.places ow.old oc.old × (s.finished < most_operations) }
    ensures { Operated ring.order ring.p sums s (spaces b.old ww.old wc.old bw.old bc.old) ow.old oc.old result (spaces b.new ww.new wc.new bw.new bc.new) ow.new oc.new }
{
    let at = s.places;
    if ow.len() - at < held(b) + 1 {
        return s.halt(Refusal::NoOutput);
    }
    let r = full_sum(ring.p, b, bw, bc, ww, wc);
    let from = r.head;
    let past = from + r.len;
    put_words_of::<u64>(ring.order, &bw[from..past], ow, at);
    put(&bc[from..past], oc, at);
    let end = at + r.len;
    ow[end] = 0;
    oc[end] = 0;
    s.compare(r.comparisons).give(r.len, r.len + 1).finish()
}
