// What is written to standard output.
ghost use Rattle.std.specs.Prelude.{◌≡◌, length};

use block::weights::weights_of;
use std::{fmt, io};

// Bytes as text: two hexadecimal digits each, a space before each.
#[derive(Clone, Copy)]
struct Bytes<'a>(&'a [u8]);

impl fmt::Display for Bytes<'_> {
    fn fmt<W: fmt::Write>(&self, f: &mut fmt::Formatter<W>) -> fmt::Result {
        for byte in self.0 {
            write!(f, " {byte:02x}")?;
        }
        Ok(())
    }
}

// The weights of x1 to x6, by their number in a header, where they are not all 1.
pub fn weights(rt: &impl Print, number: u64) -> io::Result<()> {
    // Kept: no Option: 0 is the number of six weights of 1, and no sign that there are none.
    if number == 0 {
        return Ok(());
    }
    print!(rt; "weights")?;
    for weight in weights_of((number % 0x100_0000) as u32) {
        print!(rt; " {weight}")?;
    }
    println!(rt)
}

// A block: its header, its first five places and its check, byte by byte.
pub fn block(rt: &impl Print, bytes: &[u8]) -> io::Result<()>
    requires { 512 ≡ length bytes.now }
{
    println!(rt; "header{}", Bytes(&bytes[..16]))?;
    for place in bytes[16..76].chunks_exact(12) {
        println!(rt; "place {}", Bytes(place))?;
    }
    println!(rt; "check {}", Bytes(&bytes[508..]))
}

// The first terms, a coefficient and a word to a line.
// Kept: the length beside the slices: `take` cuts both at once; cut by the caller, each would have a range to prove.
pub fn terms(rt: &impl Print, words: &[u64], coefs: &[u32], len: u64) -> io::Result<()> {
    for (word, coef) in words.iter().zip(coefs).take(len as usize) {
        println!(rt; "term {coef} {word:016x}")?;
    }
    Ok(())
}
