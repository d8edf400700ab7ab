// The weights of a script: n numbers behind the word `weights`, each behind a space.
ghost use Rattle.std.specs.Prelude.{◌≡◌};
ghost use Rattle.grammar.specs.Reading.{weights_of};
ghost use Rattle.grammar.specs.Parts.{capped_weight, ReadSpaced, weights_found};

use crate::numbers::read_numbers;

// The weight that is handed on: a larger one is refused later, and makes no word too large before.
fn capped_weight(b: u8) -> u32
    ensures { result ≡ capped_weight b }
{
    u32::from(b.min(17))
}

// Reads numbers, each behind a space, and stores those that bytes has places for.
fn read_spaced(s: &[u8], bytes: &mut [u8]) -> Option<usize>
    ensures { ReadSpaced s.now bytes.old bytes.new result }
{
    if s.is_empty() {
        return Some(0);
    }
    read_numbers(s.strip_prefix(b" ")?, b' ', bytes)
}

// Reads the n weights, by what stands behind the word, x1's first. A variable without one has weight 1.
pub fn read_weights(s: &[u8], n: u32) -> Option<[u32; 6]>
    ensures { result ≡ weights_found (weights_of n s.now) }
{
    // Kept: a buffer for the six weights, as for the exponents of a term: the project has no heap.
    let mut bytes = [1u8; 6];
    let m = read_spaced(s, &mut bytes)?;
    if m != n as usize {
        return None;
    }
    Some(bytes.map(capped_weight))
}
