// Reductions.
ghost use Rattle.std.specs.Prelude.{◌≡◌};
ghost use Rattle.polynomial.specs.Settings.{setting_of};
ghost use Rattle.call.specs.Answers.{Outcome};
ghost use Rattle.answers.specs.Course.{reduction_stated};
ghost use Rattle.reduction_outcome.specs.Outcome.{reduction_outcome};

use answers::course::ReductionAnswer;
use call::answer::Tally;
use reductions::reduce_in_place;

// The entry `reductions::reduce_in_place`. An opening refusal changes nothing.
#[unsafe(no_mangle)]
pub extern "C" fn damselbuckle_reduce(
    tally: &mut Tally,
    p: u32,
    order: u32,
    n: u32,
    weights: &[u32],
    words: &[u64],
    coefs: &[u32],
    starts: &[usize],
    limit: u64,
    bw: &mut [u64],
    bc: &mut [u32],
    ww: &mut [u64],
    wc: &mut [u32],
    ow: &mut [u64],
    oc: &mut [u32],
) -> ReductionAnswer
    ensures { ◌≡◌ {A = Outcome}
        (record { answer = reduction_stated result; tally = tally.new; bw = bw.new; bc = bc.new; ww = ww.new; wc = wc.new; ow = ow.new; oc = oc.new })
        (reduction_outcome tally.old (setting_of p order n weights.now) words.now coefs.now starts.now limit bw.old bc.old ww.old wc.old ow.old oc.old) }
{
    let answer = reduce_in_place(
        tally, p, order, n, weights, words, coefs, starts, limit, bw, bc, ww, wc, ow, oc,
    );
    ReductionAnswer::from(answer)
}
