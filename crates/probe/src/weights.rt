// The weights that are handed on, x1's first.
ghost use Rattle.std.specs.Prelude.{◌≡◌};
ghost use Rattle.probe.specs.Answers.{weights_fit};

use limits::WEIGHTS;

// Whether there are six weights, each at most `most`.
pub fn weights_fit(weights: &[u32], most: u32) -> bool
    ensures { result ≡ weights_fit most weights.now }
{
    weights.len() == WEIGHTS && weights.iter().all(|w| *w <= most)
}
