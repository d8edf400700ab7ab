// The opening check of all polynomials.
ghost use Rattle.std.specs.Prelude.{◌≡◌, true, length};
ghost use Rattle.refusal.specs.Table.{refusal_in};
ghost use Rattle.polynomial.specs.Settings.{Testable};
ghost use Rattle.polynomial.specs.Opening.{starts_good};
ghost use Rattle.opening.specs.Run.{polynomials_refusal};

use polynomial::check::check;
use polynomial::part::Polynomials;
use polynomial::setting::Setting;
use refusal::Refusal;

// Checks polynomial 0, 1, .., each handed on as its part of the slices.
// Kept: `Testable t` as a clause: it is no fact of every Setting, as one is read from a block before it is tested. And
// the lengths and starts: `Polynomials` is made of what is lent before any of it is judged.
pub fn check_polynomials(t: Setting, ps: Polynomials) -> Result<(), Refusal>
    requires { Testable t × (length ps.words.now ≡ length ps.coefs.now) × (starts_good ps.starts.now (length ps.words.now) ≡ true) }
    ensures { refusal_in result ≡ polynomials_refusal t ps.entry.words.now ps.entry.coefs.now ps.entry.starts.now }
{
    for k in 0..ps.count() {
        check(t, ps.part(k))?;
    }
    Ok(())
}
