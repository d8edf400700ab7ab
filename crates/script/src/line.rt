// A line of a script behind the first ones: `add` with terms, `lead` or `sum`.
ghost use Rattle.std.specs.Prelude.{◌≡◌, ◌+◌, ◌*◌, ◌≤◌, ◌<◌, length};
ghost use Rattle.std.proofs.lemmas.List.Edits.{sets};
ghost use Rattle.monomial.specs.Layout.{fields};
ghost use Rattle.conditions.specs.Operations.{pair_of};
ghost use Rattle.script.specs.Loading.{EntryRoom, ReadEntries, LineRoom, ReadLine, ReadAdd, counts_behind};
ghost use Rattle.grammar.specs.Grammar.{lead_line};

use conditions::operations::Operation;
use grammar::entry::{Shape, read_entry};
use text::bytes::is_word;

// How many terms, polynomials and operations have been read.
#[derive(Clone, Copy, Default)]
pub struct Counts {
    pub terms: usize,
    pub polynomials: usize,
    pub operations: usize,
}

impl Counts {
    // The counts behind an operation without terms.
    fn with_operation(self) -> Counts
        requires { 2 * self.operations < 9223372036854775808 }
        ensures { result ≡ counts_behind self lead_line }
    {
        Counts {
            operations: self.operations + 1,
            ..self
        }
    }
}

// Reads the terms of an addition, each behind a space, and puts them from place `at` on. Answers the place
// behind the last.
fn read_entries(
    s: &[u8],
    shape: Shape,
    words: &mut [u64],
    coefs: &mut [u32],
    at: usize,
) -> Option<usize>
    requires { EntryRoom (length s.now) at (length words.old) (length coefs.old) }
    ensures { ReadEntries shape.order (fields shape.order shape.weights) shape.n s.now at words.old coefs.old words.new coefs.new result }
{
    if s.is_empty() {
        return Some(at);
    }
    let fields = s.strip_prefix(b" ")?;
    // Kept: `to` is the answer: `enumerate` would give each field its place, but none behind the loop.
    let mut to = at;
    for field in fields.split(|x| *x == b' ') {
        let (word, coef) = read_entry(field, shape)?;
        words[to] = word;
        coefs[to] = coef;
        to += 1;
    }
    Some(to)
}

// Puts an operation as pair k.
fn put_pair(ops: &mut [usize], k: usize, operation: Operation)
    requires { 2 * k + 2 ≤ length ops.old }
    ensures { ops.new ≡ sets ops.old (2 * k) (pair_of operation) }
{
    let [code, index] = operation.pair();
    ops[2 * k] = code;
    ops[2 * k + 1] = index;
}

// Reads an addition, by what stands behind the word.
fn read_add(
    s: &[u8],
    shape: Shape,
    words: &mut [u64],
    coefs: &mut [u32],
    starts: &mut [usize],
    ops: &mut [usize],
    c: Counts,
) -> Option<Counts>
    requires { LineRoom (length s.now + 3) c (length words.old) (length coefs.old) (length starts.old) (length ops.old) }
    ensures { ReadAdd shape.order (fields shape.order shape.weights) shape.n s.now c words.old coefs.old starts.old ops.old words.new coefs.new starts.new ops.new result }
{
    let terms = read_entries(s, shape, words, coefs, c.terms)?;
    let k = c.polynomials;
    starts[k + 1] = terms;
    put_pair(ops, c.operations, Operation::Add(k));
    Some(Counts {
        terms,
        polynomials: k + 1,
        operations: c.operations + 1,
    })
}

// Reads a line, and answers the counts behind it.
// Kept: the lent slices are parameters, here and in the other functions and modules: with a struct of `&mut` fields
// each contract would have to say besides that a field is still the slice that was lent, and of a field that is passed
// on as `&[T]` a proof knows its length afterwards, and no element.
pub fn read_line(
    s: &[u8],
    shape: Shape,
    words: &mut [u64],
    coefs: &mut [u32],
    starts: &mut [usize],
    ops: &mut [usize],
    c: Counts,
) -> Option<Counts>
    requires { LineRoom (length s.now) c (length words.old) (length coefs.old) (length starts.old) (length ops.old) }
    ensures { ReadLine shape.order (fields shape.order shape.weights) shape.n s.now c words.old coefs.old starts.old ops.old words.new coefs.new starts.new ops.new result }
{
    if is_word(s, b"lead") {
        put_pair(ops, c.operations, Operation::Lead);
        return Some(c.with_operation());
    }
    if is_word(s, b"sum") {
        put_pair(ops, c.operations, Operation::Sum);
        return Some(c.with_operation());
    }
    let terms = s.strip_prefix(b"add")?;
    read_add(terms, shape, words, coefs, starts, ops, c)
}
