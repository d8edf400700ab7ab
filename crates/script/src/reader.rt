// A whole script.
ghost use Rattle.std.specs.Prelude.{length};
ghost use Rattle.script.specs.Loading.{ScriptRoom, ReadScript};

use crate::line::Counts;
use crate::lines::read_lines;
use grammar::entry::Shape;
use grammar::header::read_header;
use limits::SCRIPT_BYTES;
use monomial::exponents::weight_word;
use monomial::order::Order;

// The prime, the order, the number of variables, the weights, x1's first, and the counts.
#[derive(Clone, Copy)]
pub struct Loaded {
    pub prime: u32,
    pub order: Order,
    pub vars: u32,
    pub weights: [u32; 6],
    pub counts: Counts,
}

// Reads a script of any length, and puts what it says into words, coefficients, starts and operations.
pub fn read_script(
    s: &[u8],
    words: &mut [u64],
    coefs: &mut [u32],
    starts: &mut [usize],
    ops: &mut [usize],
) -> Option<Loaded>
    requires { ScriptRoom (length words.old) (length coefs.old) (length starts.old) (length ops.old) }
    ensures { ReadScript s.now words.old coefs.old starts.old ops.old words.new coefs.new starts.new ops.new result }
{
    if SCRIPT_BYTES < s.len() {
        return None;
    }
    let h = read_header(s)?;
    starts[0] = 0;
    let shape = Shape {
        order: h.order,
        weights: weight_word(h.order, &h.weights),
        n: h.vars,
    };
    let counts = read_lines(h.lines, shape, words, coefs, starts, ops)?;
    Some(Loaded {
        prime: h.prime,
        order: h.order,
        vars: h.vars,
        weights: h.weights,
        counts,
    })
}
