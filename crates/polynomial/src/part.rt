// Polynomial k of the lent slices: handed on as that part of them, not copied.
ghost use Rattle.std.specs.Prelude.{◌≡◌, ◌-◌, ◌≤◌, length};
ghost use Rattle.polynomial.specs.Opening.{part_of, Within};

use crate::terms::Terms;

// The polynomials that are lent: polynomial k lies from start k to start k + 1 of words and coefficients.
#[derive(Clone, Copy)]
pub struct Polynomials<'a> {
    pub words: &'a [u64],
    pub coefs: &'a [u32],
    pub starts: &'a [usize],
}

impl<'a> Polynomials<'a> {
    // How many there are: the last start ends the last one.
    pub fn count(self) -> usize
        requires { 1 ≤ length self.starts.now }
        ensures { result ≡ length self.entry.starts.now - 1 }
    {
        self.starts.len() - 1
    }

    // Polynomial k.
    // Kept: `Within`: k is a plain number of the loops, so a type of k that is there would be made at each call.
    pub fn part(self, k: usize) -> Terms<'a>
        requires { Within self.starts.now k (length self.words.now) × (length self.coefs.now ≡ length self.words.now) }
        ensures { (result.words.now ≡ part_of self.entry.starts.now k self.entry.words.now) × (result.coefs.now ≡ part_of self.entry.starts.now k self.entry.coefs.now) }
    {
        Terms {
            words: part_of(self.words, self.starts, k),
            coefs: part_of(self.coefs, self.starts, k),
        }
    }
}

// The words, or the coefficients, from start k to start k+1.
pub fn part_of<'a, T>(xs: &'a [T], starts: &[usize], k: usize) -> &'a [T]
    requires { Within starts.now k (length xs.now) }
    ensures { result.now ≡ part_of starts.now k xs.now }
{
    &xs[starts[k]..starts[k + 1]]
}
