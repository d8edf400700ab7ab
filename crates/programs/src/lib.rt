// What the programs that read bytes share: reading until there is no more, and saying what failed.
#![tactic(auto)]

ghost use Rattle.std.specs.Io.{ReadsAtMost};
ghost use Rattle.std.specs.Io.KnownBytes.{Consumes, IsAtEnd};
ghost use Rattle.std.specs.Prelude.{◌<◌, IfOk, length, take};

use std::io;
use std::io::{Error, Read};

// Reads until bytes is full or the input ends, and answers how many bytes it put at the start of bytes: those
// that the input had next, and all of them where there is room left. A read that fails is an error, after
// which no clause says what bytes hold.
// Kept: the loop counts the bytes: `read_exact` takes no shorter input, and the methods that read to the end
// fill a `Vec` or a `String`, no lent slice.
pub fn read_full<R: Read>(input: &mut R, bytes: &mut [u8]) -> io::Result<usize>
    ensures bound { ReadsAtMost result bytes.new }
    ensures bytes { IfOk result (λ n.
        Consumes (R.remaining input.old) (R.remaining input.new) (take n bytes.new)) }
    ensures end { IfOk result (λ n. n < length bytes.new → IsAtEnd (R.remaining input.new)) }
{
    let mut done = 0;
    while done < bytes.len() {
        let more = input.read(&mut bytes[done..])?;
        if more == 0 {
            return Ok(done);
        }
        done += more;
    }
    Ok(done)
}

// Says on standard error what failed and why, in the system's words without their number. It has no clause, as
// `Eprint` of std promises nothing of what is written.
pub fn fail(rt: &(impl Eprint + AllocGlobal), what: &str, error: Error) -> io::Result<()> {
    let text = format!(in rt.alloc(); "{error}")?;
    if let Some((words, _)) = text.as_str().split_once(" (os error ") {
        return eprintln!(rt; "{what}: {words}");
    }
    eprintln!(rt; "{what}: {text}")
}

#[cfg(test)]
mod tests {
    use super::*;
    use std::io::ErrorKind;

    #[test]
    fn says_what_failed(rt: HostRuntime) -> io::Result<()> {
        fail(&rt, "standard input", Error::from(ErrorKind::NotFound))
    }
}
