// The weights of x1 to x6 as one number of 24 bits: weight minus 1 in four bits each, x1's lowest.
ghost use Rattle.std.specs.Prelude.{◌≡◌, ◌+◌, ◌%◌, ◌<◌};
ghost use Rattle.block.specs.Block.{weight_number, weights_of};

// The number of the weights.
// Kept: no type has four bits, so the halves are put and taken by arithmetic, here and below.
pub fn weight_number(weights: &[u32; 6]) -> u32
    ensures { result ≡ weight_number weights.now }
{
    let mut number = 0;
    for i in (0..6).rev() {
        number = 16 * number + half(weights[i]);
    }
    number
}

// Four bits: the weight minus 1, of weights from 1 to 16.
fn half(weight: u32) -> u32
    ensures { (result ≡ (weight + 15) % 16) × (result < 16) }
{
    (weight % 16 + 15) % 16
}

// The weights of the number.
pub fn weights_of(number: u32) -> [u32; 6]
    ensures { result ≡ weights_of 6 number }
{
    let mut weights = [1; 6];
    let mut left = number;
    for weight in &mut weights {
        *weight = left % 16 + 1;
        left /= 16;
    }
    weights
}
