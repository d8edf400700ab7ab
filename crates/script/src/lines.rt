// The lines of a script behind the first ones.
ghost use Rattle.std.specs.Prelude.{length};
ghost use Rattle.monomial.specs.Layout.{fields};
ghost use Rattle.script.specs.Loading.{LinesRoom, ReadLines};

use crate::line::{Counts, read_line};
use grammar::entry::Shape;

// Reads the lines and puts what they say into words, coefficients, starts and operations. The first start
// is left to the caller.
pub fn read_lines(
    s: &[u8],
    shape: Shape,
    words: &mut [u64],
    coefs: &mut [u32],
    starts: &mut [usize],
    ops: &mut [usize],
) -> Option<Counts>
    requires { LinesRoom (length s.now) (length words.old) (length coefs.old) (length starts.old) (length ops.old) }
    ensures { ReadLines shape.order (fields shape.order shape.weights) shape.n s.now words.old coefs.old starts.old ops.old words.new coefs.new starts.new ops.new result }
{
    let mut c = Counts::default();
    if s.is_empty() {
        return Some(c);
    }
    let ended = s.strip_suffix(b"\n")?;
    for line in ended.split(|x| *x == b'\n') {
        c = read_line(line, shape, words, coefs, starts, ops, c)?;
    }
    Some(c)
}
