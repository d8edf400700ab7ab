// The search for the lead.
ghost use Rattle.std.specs.Prelude.{◌≡◌, ◌++◌, ◌<◌, length, MatchOption};
ghost use Prim.Native.Nat.{compare};
ghost use Rattle.space.specs.Space.{dropped, spaces, Standing, Slices};
ghost use Rattle.search.specs.Searching.{Removal, Seek, SeekDone, FirstHeld, Found, Taken};

use crate::candidate::{Candidate, LeadSearch};
use crate::largest::largest_lead;
use merge_common::merging::larger;
use polynomial::ring::Ring;
use space::leads::{lead_coef, lead_key, put_lead_coef};
use space::state::{head_of, len_of, place};

// Searches for the lead, and leaves it in its bucket with like terms combined. A candidate of coefficient 0 is
// removed, and the search begins again.
// Kept: the lent slices as parameters of their own, with `Slices` on them, here and below: where a slice is a `&mut`
// field of a struct and is passed on as `&[T]`, as `b` is to `first_held`, a proof knows its length afterwards and
// no element, so each function would take the struct apart into these slices first.
pub fn find_lead(
    ring: Ring,
    b: &mut [usize],
    sw: &[u64],
    sc: &mut [u32],
    ww: &[u64],
    wc: &mut [u32],
) -> LeadSearch
    requires { Standing ring.p (spaces b.old ww.now wc.old sw.now sc.old) × Slices ww.now wc.old sw.now sc.old }
    ensures { Found ring.order ring.p (spaces b.old ww.now wc.old sw.now sc.old) (spaces b.new ww.now wc.new sw.now sc.new) result }
{
    let mut n: u64 = 0;
    while let Some(i) = first_held(b) {
        let c = Candidate {
            bucket: i,
            count: n,
            key: lead_key(b, ww, sw, i),
            coef: lead_coef(b, wc, sc, i),
        };
        let d = seek(ring.p, b, c, sw, sc, ww, wc);
        if d.coef != 0 {
            return d.in_words(ring.order);
        }
        remove_lead(b, d.bucket);
        n = d.count;
    }
    LeadSearch {
        count: n,
        lead: None,
    }
}

// Searches for the lead, and removes it. Where no leads are like, it is enough to look at them.
pub fn take_lead(
    ring: Ring,
    b: &mut [usize],
    sw: &[u64],
    sc: &mut [u32],
    ww: &[u64],
    wc: &mut [u32],
) -> LeadSearch
    requires { Standing ring.p (spaces b.old ww.now wc.old sw.now sc.old) × Slices ww.now wc.old sw.now sc.old }
    ensures { Taken ring.order ring.p (spaces b.old ww.now wc.old sw.now sc.old) (spaces b.new ww.now wc.new sw.now sc.new) result }
{
    let t = largest_lead(b, sw, ww);
    if t.like == 0 && t.held != 0 {
        let coef = lead_coef(b, wc, sc, t.bucket);
        remove_lead(b, t.bucket);
        return t.candidate(coef).in_words(ring.order);
    }
    let found = find_lead(ring, b, sw, sc, ww, wc);
    if let Some(lead) = found.lead {
        remove_lead(b, lead.bucket);
    }
    found
}

// Goes through the buckets above the candidate's own. The candidate's sum is stored as soon as a
// like lead joins it, so that only a candidate of coefficient 0 has to be removed when replaced.
fn seek(
    p: u32,
    b: &mut [usize],
    candidate: Candidate,
    sw: &[u64],
    sc: &mut [u32],
    ww: &[u64],
    wc: &mut [u32],
) -> Candidate
    requires { Seek compare p b.old candidate (ww.now ++ sw.now) (wc.old ++ sc.old) × Slices ww.now wc.old sw.now sc.old }
    ensures { SeekDone compare p b.old candidate (ww.now ++ sw.now) (wc.old ++ sc.old) (wc.new ++ sc.new) b.new result }
{
    let mut c = candidate;
    for i in c.bucket + 1..6 {
        let len = len_of(b, i);
        if len == 0 {
            continue;
        }
        let key = lead_key(b, ww, sw, i);
        if key == c.key {
            c = c.join(lead_coef(b, wc, sc, i), p);
            put_lead_coef(b, wc, sc, c.bucket, c.coef);
            remove_lead(b, i);
        } else if larger(key, c.key) {
            let own = c.bucket;
            let gone = usize::from(c.coef == 0);
            let head = head_of(b, own);
            let left = len_of(b, own);
            c = c.replace(i, key, lead_coef(b, wc, sc, i));
            place(b, own, head + gone, left - gone);
        } else {
            c = c.pass_by();
        }
    }
    c
}

// The lowest bucket that is not empty.
fn first_held(b: &[usize]) -> Option<usize>
    requires { length b.now ≡ 18 }
    ensures { MatchOption result (FirstHeld b.now 6) (λ i. FirstHeld b.now i × (i < 6)) }
{
    (0..6).find(|i| len_of(b, *i) != 0)
}

// Removes the lead of a bucket that is not empty.
pub fn remove_lead(b: &mut [usize], i: usize)
    requires { Removal b.old i }
    ensures { b.new ≡ dropped b.old i }
{
    let head = head_of(b, i);
    let len = len_of(b, i);
    place(b, i, head + 1, len - 1);
}
