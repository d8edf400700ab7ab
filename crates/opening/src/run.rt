// All opening checks of a run, in their order.
ghost use Rattle.std.specs.Prelude.{◌≡◌};
ghost use Rattle.refusal.specs.Table.{refusal_in};
ghost use Rattle.polynomial.specs.Settings.{setting_of};
ghost use Rattle.opening.specs.Run.{run_refusal};

use crate::polynomials::check_polynomials;
use crate::setting::GivenSetting;
use crate::shape::shape_good;
use conditions::lengths::Lengths;
use conditions::operations::operations_good;
use polynomial::part::Polynomials;
use refusal::Refusal;

// The refusal of a run: by its setting, its shape, its operations, then the polynomials'.
pub fn run_opening(
    given: GivenSetting,
    ps: Polynomials,
    ops: &[usize],
    lengths: Lengths,
) -> Result<(), Refusal>
    ensures { refusal_in result ≡ run_refusal (setting_of given.entry.p given.entry.order given.entry.n given.entry.weights.now) ps.entry.words.now ps.entry.coefs.now ps.entry.starts.now ops.now lengths.bw lengths.bc lengths.ww lengths.wc lengths.ow lengths.oc }
{
    given.check()?;
    if !shape_good(given.weights.len(), ps, ops.len(), lengths) {
        return Err(Refusal::BadShape);
    }
    if !operations_good(ops, ps.count()) {
        return Err(Refusal::BadOperation);
    }
    check_polynomials(given.setting(), ps)
}
