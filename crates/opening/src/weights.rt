// The weights of the variables.
ghost use Rattle.std.specs.Prelude.{◌≡◌};
ghost use Rattle.opening.specs.Run.{weight_good, weights_good};

use limits::LARGEST_WEIGHT;

// Whether each weight is in its range, x1's first: 1 to 16 for the first n, and 1 beyond.
pub fn weights_good(n: u32, weights: &[u32]) -> bool
    ensures { result ≡ weights_good n weights.now }
{
    weights
        .iter()
        .enumerate()
        .all(|(i, weight)| weight_good(i < n as usize, *weight))
}

// Whether one weight is, by whether its variable is one of the n.
fn weight_good(used: bool, weight: u32) -> bool
    ensures { result ≡ weight_good used weight }
{
    if used {
        (1..=LARGEST_WEIGHT).contains(&weight)
    } else {
        weight == 1
    }
}
