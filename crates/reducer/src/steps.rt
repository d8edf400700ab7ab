// The steps of a reduction in turn.
ghost use Rattle.monomial.specs.Words.{compare_words};
ghost use Rattle.polynomial.specs.Terms.{terms};
ghost use Rattle.space.specs.Space.{spaces, Slices};
ghost use Rattle.call.specs.Lending.{Addend, Lent};
ghost use Rattle.reducer.specs.Stepping.{Reducible, Beginning, Begun, Reduced};

use crate::step::step;
use buckets::add::add_polynomial;
use call::state::State;
use divisors::divisor::keep_leads;
use divisors::kept::{Cache, KEPT};
use limits::MOST_TERMS;
use polynomial::part::Polynomials;
use polynomial::ring::Ring;
use refusal::Refusal;

// The reduction of polynomial 0 by the others, all of which passed the opening checks.
// Kept: fixed arrays for what is kept of the first 1,024 divisors, as the engine has no heap.
pub fn reduce_all(
    ring: Ring,
    ps: Polynomials,
    limit: u64,
    b: &mut [usize],
    bw: &mut [u64],
    bc: &mut [u32],
    ww: &mut [u64],
    wc: &mut [u32],
    ow: &mut [u64],
    oc: &mut [u32],
) -> State
    requires { Reducible ring.order ring.p ps.words.now ps.coefs.now ps.starts.now limit × Lent b.old bw.old bc.old ww.old wc.old ow.old oc.old }
    ensures { Reduced ring.order ring.p ps.entry.words.now ps.entry.coefs.now ps.entry.starts.now limit ow.old oc.old result (spaces b.new ww.new wc.new bw.new bc.new) ow.new oc.new }
{
    let mut leads = [0; KEPT];
    let mut kept = Cache {
        inverses: [0; KEPT],
        highest: [0; KEPT],
    };
    keep_leads(ps, &mut leads);
    let f = ps.part(0);
    let mut s = begin(ring, f.words, f.coefs, b, bw, bc, ww, wc);
    while s.goes_on() {
        s = step(
            ring, ps, &leads, limit, s, &mut kept, b, bw, bc, ww, wc, ow, oc,
        );
    }
    s
}

// Polynomial 0 is added first. It is refused with 11 where it has over 4,096 terms.
fn begin(
    ring: Ring,
    fw: &[u64],
    fc: &[u32],
    b: &mut [usize],
    bw: &mut [u64],
    bc: &mut [u32],
    ww: &mut [u64],
    wc: &mut [u32],
) -> State
    requires { Addend (compare_words ring.order) ring.p fw.now fc.now × Beginning ring.p b.old × Slices ww.old wc.old bw.old bc.old }
    ensures { Begun ring.order ring.p (terms fw.now fc.now) (spaces b.old ww.old wc.old bw.old bc.old) result (spaces b.new ww.new wc.new bw.new bc.new) }
{
    let s = State::new();
    if fw.len() > MOST_TERMS {
        return s.halt(Refusal::TooManyTerms);
    }
    let comparisons = add_polynomial(ring, b, fw, fc, bw, bc, ww, wc);
    s.compare(comparisons).bring(fw.len())
}
