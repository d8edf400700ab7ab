// All opening checks of a reduction, in their order.
ghost use Rattle.std.specs.Prelude.{◌≡◌, length};
ghost use Rattle.refusal.specs.Table.{refusal_in};
ghost use Rattle.polynomial.specs.Settings.{setting_of};
ghost use Rattle.opening.specs.Reduction.{reduction_shape, reduction_refusal};

use crate::polynomials::check_polynomials;
use crate::setting::GivenSetting;
use crate::shape::input_good;
use conditions::divisors::divisors_good;
use conditions::lengths::Lengths;
use limits::MOST_STEPS;
use polynomial::part::Polynomials;
use refusal::Refusal;

// The refusal of a reduction: by its setting, its shape, the polynomials', then for a zero divisor.
pub fn reduction_opening(
    given: GivenSetting,
    ps: Polynomials,
    limit: u64,
    lengths: Lengths,
) -> Result<(), Refusal>
    ensures { refusal_in result ≡ reduction_refusal (setting_of given.entry.p given.entry.order given.entry.n given.entry.weights.now) ps.entry.words.now ps.entry.coefs.now ps.entry.starts.now limit lengths.bw lengths.bc lengths.ww lengths.wc lengths.ow lengths.oc }
{
    given.check()?;
    if !reduction_shape(given.weights.len(), ps, limit, lengths) {
        return Err(Refusal::BadShape);
    }
    check_polynomials(given.setting(), ps)?;
    if !divisors_good(ps.starts) {
        return Err(Refusal::ZeroDivisor);
    }
    Ok(())
}

// Whether lengths, starts and step limit are as a reduction asks, by the lengths of the slices.
#[tactic(auto, unfolding(crate::specs::Reduction::reduction_shape))]
fn reduction_shape(weights: usize, ps: Polynomials, limit: u64, lengths: Lengths) -> bool
    ensures { result ≡ reduction_shape weights (length ps.entry.words.now) (length ps.entry.coefs.now) ps.entry.starts.now limit lengths.bw lengths.bc lengths.ww lengths.wc lengths.ow lengths.oc }
{
    input_good(weights, ps, lengths) && 1 < ps.starts.len() && limit <= MOST_STEPS
}
