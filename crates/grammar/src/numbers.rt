// Numbers parted by a byte, as the exponents of a term and the weights of a script are.
ghost use Rattle.std.specs.Prelude.{◌≡◌, set};
ghost use Rattle.grammar.specs.Parts.{capped, ReadNumbers};

use text::number::{byte_of, read_number};

// Stores the number at a place, if there is one.
fn store(bytes: &mut [u8], at: usize, v: u32)
    ensures { bytes.new ≡ set bytes.old at (capped v) }
{
    if at < bytes.len() {
        bytes[at] = byte_of(v);
    }
}

// Reads the numbers, parted by the byte b, and stores those that bytes has places for. Answers how many
// there are, or that they are not of the form.
pub fn read_numbers(s: &[u8], b: u8, bytes: &mut [u8]) -> Option<usize>
    ensures { ReadNumbers b s.now bytes.old bytes.new result }
{
    // Kept: the count is the answer: `enumerate` would give each part its place, but no count behind the loop.
    let mut count = 0;
    for part in s.split(|x| *x == b) {
        store(bytes, count, read_number(part)?);
        count += 1;
    }
    Some(count)
}
