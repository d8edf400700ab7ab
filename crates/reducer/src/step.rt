// One step of a reduction.
ghost use Rattle.space.specs.Space.{spaces, Slices};
ghost use Rattle.reducer.specs.Stepping.{Keeping, Kept, Stepping, Stepped};

use crate::divide::divide;
use call::state::State;
use divisors::divisor::first_fit;
use divisors::kept::{Cache, KEPT};
use polynomial::part::Polynomials;
use polynomial::ring::Ring;
use refusal::Refusal;
use search::candidate::Lead;
use search::lead::{find_lead, remove_lead};

// Finds the lead, then divides it by the first divisor whose lead monomial divides it, or puts it to
// the remainder. The reduction ends where no lead is found, and stops with 13 where one is found and the limit's
// leads are removed already.
pub fn step(
    ring: Ring,
    ps: Polynomials,
    leads: &[u64; KEPT],
    limit: u64,
    s: State,
    kept: &mut Cache,
    b: &mut [usize],
    bw: &mut [u64],
    bc: &mut [u32],
    ww: &mut [u64],
    wc: &mut [u32],
    ow: &mut [u64],
    oc: &mut [u32],
) -> State
    requires { Stepping ring.order ring.p ps.words.now ps.coefs.now ps.starts.now leads.now limit s kept.old (spaces b.old ww.old wc.old bw.old bc.old) ow.old oc.old × Slices ww.old wc.old bw.old bc.old }
    ensures { Stepped ring.order ring.p ps.entry.words.now ps.entry.coefs.now ps.entry.starts.now limit s (spaces b.old ww.old wc.old bw.old bc.old) ow.old oc.old result kept.new (spaces b.new ww.new wc.new bw.new bc.new) ow.new oc.new }
{
    let found = find_lead(ring, b, bw, bc, ww, wc);
    let t = s.compare(found.count);
    let Some(lead) = found.lead else {
        return t.close();
    };
    if t.finished == limit {
        return t.halt(Refusal::StepLimit);
    }
    if let Some(k) = first_fit(ps, leads, lead.word) {
        return divide(ring, ps, k, t, lead, kept, b, bw, bc, ww, wc);
    }
    keep(t, lead, b, ow, oc)
}

// Puts the lead to the remainder, or refuses with 10 where the output has no place for it.
fn keep(s: State, lead: Lead, b: &mut [usize], ow: &mut [u64], oc: &mut [u32]) -> State
    requires { Keeping s lead b.old ow.old oc.old }
    ensures { Kept s lead b.old ow.old oc.old result b.new ow.new oc.new }
{
    let at = s.places;
    if at >= ow.len() {
        return s.halt(Refusal::NoOutput);
    }
    ow[at] = lead.word;
    oc[at] = lead.coef;
    remove_lead(b, lead.bucket);
    s.finish().give(1, 1)
}
