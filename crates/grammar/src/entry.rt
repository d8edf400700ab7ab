// A term of a script: coefficient, colon, exponents.
ghost use Rattle.std.specs.Prelude.{◌≡◌};
ghost use Rattle.monomial.specs.Layout.{fields, Below};
ghost use Rattle.grammar.specs.Reading.{entry_of};
ghost use Rattle.grammar.specs.Parts.{parsed, Below-prop};

use crate::numbers::read_numbers;
use monomial::exponents::word_of;
use monomial::order::Order;
use text::bytes::split_once;
use text::number::read_number;

// What the words of a script's terms follow: the order, the weights as `weight_word` gives them, and the
// number of variables.
#[derive(Clone, Copy)]
pub struct Shape {
    pub order: Order,
    pub weights: u64,
    pub n: u32,
    ghost weights_small: { Below 18 (fields order weights) } by { Below-prop 18 (fields order weights) },
}

// Reads a term of n exponents as word and coefficient.
pub fn read_entry(s: &[u8], shape: Shape) -> Option<(u64, u32)>
    ensures { result ≡ parsed shape.order (fields shape.order shape.weights) (entry_of shape.n s.now) }
{
    let (coef, numbers) = split_once(s, b':')?;
    let c = read_number(coef)?;
    // Kept: a buffer for the six exponents that a word has fields for: the engine's crates use no heap.
    let mut exps = [0u8; 6];
    let m = read_numbers(numbers, b'.', &mut exps)?;
    if m != shape.n as usize {
        return None;
    }
    let word = word_of(shape.order, shape.weights, &exps[..m.min(6)]);
    Some((word, c))
}
