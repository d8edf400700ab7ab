// The whole listing of a script.
ghost use Rattle.std.specs.Prelude.{◌≤◌, length};
ghost use Rattle.limits.specs.Limits.{script_numbers, script_terms};
ghost use Rattle.call.specs.Answers.{stated};
ghost use Rattle.listing_lines.specs.Put.{Put};
ghost use Rattle.listing.specs.Whole.{ran_text, RanRoom, loaded_text, listing_of};

use call::answer::{Returned, Tally};
use limits::{BUCKET_PLACES, SCRIPT_NUMBERS, SCRIPT_STARTS, SCRIPT_TERMS, WORK_PLACES};
use listing_lines::ending::{put_cost, put_refused};
use listing_lines::term::Variables;
use polynomial::part::Polynomials;
use polynomial::terms::Terms;
use refusal::Refusal;
use runs::run;
use script::reader::{Loaded, read_script};

// Puts what the run of what was read answered.
fn put_ran(ran: Returned, l: Loaded, ops: &[usize], ow: &[u64], oc: &[u32], out: &mut [u8]) -> usize
    requires { RanRoom ran.tally (stated ran.answer) (length ow.now) (length oc.now) }
    ensures { Put (ran_text l.order l.vars ops.now ow.now oc.now ran.tally (stated ran.answer)) 0 out.old out.new result }
{
    match ran.answer {
        Ok(done) => {
            let m = done.places as usize;
            let variables = Variables {
                order: l.order,
                n: l.vars,
            };
            let given = Terms {
                words: &ow[..m],
                coefs: &oc[..m],
            };
            let at = variables.put_answers(ops, given, out);
            put_cost(ran.tally.comparisons, ran.tally.brought, out, at)
        }
        Err(stopped) => put_refused(stopped.refusal.number(), stopped.finished, out, 0),
    }
}

// Runs what a script says, and puts what the run answered.
// Kept: buffers of a fixed size, here and below, for the longest script: the engine's crates use no heap.
fn list_run(l: Loaded, ps: Polynomials<'_>, ops: &[usize], out: &mut [u8]) -> usize
    requires { (length ps.words.now ≤ script_terms) × (length ops.now ≤ script_numbers) }
    ensures { Put (loaded_text l ps.entry.words.now ps.entry.coefs.now ps.entry.starts.now ops.now) 0 out.old out.new result }
{
    let mut bw = [0u64; BUCKET_PLACES];
    let mut bc = [0u32; BUCKET_PLACES];
    let mut ww = [0u64; WORK_PLACES];
    let mut wc = [0u32; WORK_PLACES];
    let mut ow = [0u64; SCRIPT_TERMS];
    let mut oc = [0u32; SCRIPT_TERMS];
    let none = Tally::default();
    let order = l.order.number();
    let ran = run(
        none, l.prime, order, l.vars, &l.weights, ps.words, ps.coefs, ps.starts, ops, &mut bw,
        &mut bc, &mut ww, &mut wc, &mut ow, &mut oc,
    );
    put_ran(ran, l, ops, &ow, &oc, out)
}

// Reads a script and puts its listing.
pub fn put_listing(script: &[u8], out: &mut [u8]) -> usize
    ensures { Put (listing_of script.now) 0 out.old out.new result }
{
    let mut words = [0u64; SCRIPT_TERMS];
    let mut coefs = [0u32; SCRIPT_TERMS];
    let mut starts = [0usize; SCRIPT_STARTS];
    let mut ops = [0usize; SCRIPT_NUMBERS];
    let found = read_script(script, &mut words, &mut coefs, &mut starts, &mut ops);
    let Some(l) = found else {
        return put_refused(Refusal::BadScript.number(), 0, out, 0);
    };
    let counts = l.counts;
    let ps = Polynomials {
        words: &words[..counts.terms],
        coefs: &coefs[..counts.terms],
        starts: &starts[..counts.polynomials + 1],
    };
    list_run(l, ps, &ops[..2 * counts.operations], out)
}
