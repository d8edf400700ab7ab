// The entry for runs: a list of operations on an empty geobucket. `run` takes and hands back the counts
// of its tally by value; `run_in_place` sets them in a record that is lent.
#![tactic(auto)]

ghost use Rattle.std.specs.Prelude.{◌≡◌};
ghost use Rattle.polynomial.specs.Settings.{setting_of};
ghost use Rattle.call.specs.Answers.{Outcome, stated};
ghost use Rattle.run_outcome.specs.Outcome.{run_outcome};

use call::answer::{Answer, Returned, Tally, ended, refused};
use conditions::lengths::Lengths;
use engine::run::operate_all;
use monomial::order::order_of;
use opening::run::run_opening;
use opening::setting::GivenSetting;
use polynomial::part::Polynomials;
use polynomial::ring::Ring;
use space::settle::settle;
use space::state::EMPTY;

// Does the operations on an empty geobucket. The old counts come back from an opening refusal, which
// changes nothing.
// Kept: fifteen parameters, here and in `run_in_place`: they are what a call lends by document 01, in the order in
// which the C function lends them; and the buckets' places in an array of 18, lent on as a slice (see `space`).
pub fn run(
    tally: Tally,
    p: u32,
    order: u32,
    n: u32,
    weights: &[u32],
    words: &[u64],
    coefs: &[u32],
    starts: &[usize],
    ops: &[usize],
    bw: &mut [u64],
    bc: &mut [u32],
    ww: &mut [u64],
    wc: &mut [u32],
    ow: &mut [u64],
    oc: &mut [u32],
) -> Returned
    ensures { ◌≡◌ {A = Outcome}
        (record { answer = stated result.answer; tally = result.tally; bw = bw.new; bc = bc.new; ww = ww.new; wc = wc.new; ow = ow.new; oc = oc.new })
        (run_outcome tally (setting_of p order n weights.now) words.now coefs.now starts.now ops.now bw.old bc.old ww.old wc.old ow.old oc.old) }
{
    let ps = Polynomials {
        words,
        coefs,
        starts,
    };
    // Kept: the lengths by name, as in `reductions`: a function that made them of the six slices would take three
    // of u64 and three of u32, in an order that no type holds.
    let lengths = Lengths {
        bw: bw.len(),
        bc: bc.len(),
        ww: ww.len(),
        wc: wc.len(),
        ow: ow.len(),
        oc: oc.len(),
    };
    let given = GivenSetting {
        p,
        order,
        n,
        weights,
    };
    if let Err(refusal) = run_opening(given, ps, ops, lengths) {
        return refused(refusal, tally);
    }
    let mut b = EMPTY;
    let order = order_of(order);
    let ring = Ring { order, p };
    let s = operate_all(ring, ps, ops, &mut b, bw, bc, ww, wc, ow, oc);
    settle::<u64>(order, &b, bw, bc, ww, wc);
    ended(s, &b)
}

// The same, with the counts set in place.
// Kept: may not change: an entry of document 01 beside `run`, which `README.md` and `docs/` name.
pub fn run_in_place(
    tally: &mut Tally,
    p: u32,
    order: u32,
    n: u32,
    weights: &[u32],
    words: &[u64],
    coefs: &[u32],
    starts: &[usize],
    ops: &[usize],
    bw: &mut [u64],
    bc: &mut [u32],
    ww: &mut [u64],
    wc: &mut [u32],
    ow: &mut [u64],
    oc: &mut [u32],
) -> Answer
    ensures { ◌≡◌ {A = Outcome}
        (record { answer = stated result; tally = tally.new; bw = bw.new; bc = bc.new; ww = ww.new; wc = wc.new; ow = ow.new; oc = oc.new })
        (run_outcome tally.old (setting_of p order n weights.now) words.now coefs.now starts.now ops.now bw.old bc.old ww.old wc.old ow.old oc.old) }
{
    let ran = run(
        *tally, p, order, n, weights, words, coefs, starts, ops, bw, bc, ww, wc, ow, oc,
    );
    *tally = ran.tally;
    ran.answer
}
