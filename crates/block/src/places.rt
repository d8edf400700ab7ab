// The places of a block.
ghost use Rattle.std.specs.Prelude.{◌≡◌, ◌+◌, ◌*◌, ◌≤◌, length};
ghost use Rattle.std.proofs.lemmas.List.Edits.{sets};
ghost use Rattle.polynomial.specs.Terms.{terms};
ghost use Rattle.block.specs.Block.{places};

use crate::PLACE_BYTES;
use crate::number::put_number;
use polynomial::terms::Terms;

// Puts the terms into 12 bytes each, from place `at` on.
// Kept: no plainer: the index is that of the term's bytes too, so that a `zip` of words and coefficients would need
// it as well.
pub fn put_places(f: Terms, s: &mut [u8], at: usize)
    requires { at + 12 * length f.words.now ≤ length s.old }
    ensures { s.new ≡ sets s.old at (places (terms f.entry.words.now f.entry.coefs.now)) }
{
    for (i, word) in f.words.iter().enumerate() {
        put_number::<8>(s, at + PLACE_BYTES * i, *word);
        put_number::<4>(s, at + PLACE_BYTES * i + 8, u64::from(f.coefs[i]));
    }
}
