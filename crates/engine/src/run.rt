// The operations of a run in turn.
ghost use Rattle.space.specs.Space.{spaces, Slices};
ghost use Rattle.call.specs.Lending.{Lent};
ghost use Rattle.conditions.specs.Operations.{code_of, index_of};
ghost use Rattle.run_outcome.specs.Runs.{operation_of};
ghost use Rattle.operations.specs.States.{Operated};
ghost use Rattle.engine.specs.States.{Operable, Loaded, RanAll};

use call::state::State;
use conditions::operations::Operation;
use operations::{add_operation, lead_operation, sum_operation};
use polynomial::part::Polynomials;
use polynomial::ring::Ring;

// One operation of a list that passed the opening checks.
// Kept: the lent slices as parameters of their own, here and below. In a struct of `&mut` slices each function would
// have to ensure of every field that it still has the ghost name of the slice that was lent; and of a field that is
// passed on as `&[T]`, without a name of its own first, a proof knows the length, and no element.
pub fn operate(
    ring: Ring,
    ps: Polynomials,
    operation: Operation,
    s: State,
    b: &mut [usize],
    bw: &mut [u64],
    bc: &mut [u32],
    ww: &mut [u64],
    wc: &mut [u32],
    ow: &mut [u64],
    oc: &mut [u32],
) -> State
    requires { Operable ring.order ring.p ps.words.now ps.coefs.now ps.starts.now (code_of operation) (index_of operation) s (spaces b.old ww.old wc.old bw.old bc.old) ow.old oc.old × Slices ww.old wc.old bw.old bc.old }
    ensures { Operated ring.order ring.p (operation_of ps.entry.words.now ps.entry.coefs.now ps.entry.starts.now (code_of operation) (index_of operation)) s (spaces b.old ww.old wc.old bw.old bc.old) ow.old oc.old result (spaces b.new ww.new wc.new bw.new bc.new) ow.new oc.new }
{
    match operation {
        Operation::Add(k) => {
            let f = ps.part(k);
            add_operation(ring, s, b, f.words, f.coefs, bw, bc, ww, wc)
        }
        Operation::Lead => lead_operation(ring, s, b, bw, bc, ww, wc, ow, oc),
        Operation::Sum => sum_operation(ring, s, b, bw, bc, ww, wc, ow, oc),
    }
}

// The operations of a list that passed the opening checks, up to one that is refused.
pub fn operate_all(
    ring: Ring,
    ps: Polynomials,
    ops: &[usize],
    b: &mut [usize],
    bw: &mut [u64],
    bc: &mut [u32],
    ww: &mut [u64],
    wc: &mut [u32],
    ow: &mut [u64],
    oc: &mut [u32],
) -> State
    requires { Loaded ring.order ring.p ps.words.now ps.coefs.now ps.starts.now ops.now × Lent b.old bw.old bc.old ww.old wc.old ow.old oc.old }
    ensures { RanAll ring.order ring.p ps.entry.words.now ps.entry.coefs.now ps.entry.starts.now ops.now ow.old oc.old result (spaces b.new ww.new wc.new bw.new bc.new) ow.new oc.new }
{
    let mut s = State::new();
    let (pairs, _) = ops.as_chunks::<2>();
    for &[code, k] in pairs {
        if !s.goes_on() {
            return s;
        }
        let operation = Operation::of(code, k);
        s = operate(ring, ps, operation, s, b, bw, bc, ww, wc, ow, oc);
    }
    s
}
