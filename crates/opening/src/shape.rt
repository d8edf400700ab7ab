// The sizes of what is lent to a run.
ghost use Rattle.std.specs.Prelude.{◌≡◌, ◌&&◌, length};
ghost use Rattle.conditions.specs.Lengths.{lent_good};
ghost use Rattle.polynomial.specs.Opening.{starts_good};
ghost use Rattle.opening.specs.Run.{shape_good};

use conditions::lengths::{Lengths, pairs_good};
use polynomial::part::Polynomials;
use polynomial::starts::starts_good;

// Whether lengths and starts are as a run asks, by the lengths of the slices.
#[tactic(auto, unfolding(crate::specs::Run::shape_good))]
pub fn shape_good(weights: usize, ps: Polynomials, ops: usize, lengths: Lengths) -> bool
    ensures { result ≡ shape_good weights (length ps.entry.words.now) (length ps.entry.coefs.now) ps.entry.starts.now ops lengths.bw lengths.bc lengths.ww lengths.wc lengths.ow lengths.oc }
{
    input_good(weights, ps, lengths) && pairs_good(ops)
}

// Whether lengths and starts are as runs and reductions ask.
pub fn input_good(weights: usize, ps: Polynomials, lengths: Lengths) -> bool
    ensures { result ≡ lent_good weights (length ps.entry.words.now) (length ps.entry.coefs.now) lengths.bw lengths.bc lengths.ww lengths.wc lengths.ow lengths.oc && starts_good ps.entry.starts.now (length ps.entry.words.now) }
{
    let words = ps.words.len();
    lengths.lent_good(weights, words, ps.coefs.len()) && starts_good(ps.starts, words)
}
