// Runs.
ghost use Rattle.std.specs.Prelude.{◌≡◌};
ghost use Rattle.polynomial.specs.Settings.{setting_of};
ghost use Rattle.call.specs.Answers.{Outcome};
ghost use Rattle.answers.specs.Course.{run_stated};
ghost use Rattle.run_outcome.specs.Outcome.{run_outcome};

use answers::course::RunAnswer;
use call::answer::Tally;
use runs::run_in_place;

// The entry `runs::run_in_place`. An opening refusal changes nothing.
#[unsafe(no_mangle)]
pub extern "C" fn damselbuckle_run(
    tally: &mut Tally,
    p: u32,
    order: u32,
    n: u32,
    weights: &[u32],
    words: &[u64],
    coefs: &[u32],
    starts: &[usize],
    ops: &[usize],
    bw: &mut [u64],
    bc: &mut [u32],
    ww: &mut [u64],
    wc: &mut [u32],
    ow: &mut [u64],
    oc: &mut [u32],
) -> RunAnswer
    ensures { ◌≡◌ {A = Outcome}
        (record { answer = run_stated result; tally = tally.new; bw = bw.new; bc = bc.new; ww = ww.new; wc = wc.new; ow = ow.new; oc = oc.new })
        (run_outcome tally.old (setting_of p order n weights.now) words.now coefs.now starts.now ops.now bw.old bc.old ww.old wc.old ow.old oc.old) }
{
    let answer = run_in_place(
        tally, p, order, n, weights, words, coefs, starts, ops, bw, bc, ww, wc, ow, oc,
    );
    RunAnswer::from(answer)
}
