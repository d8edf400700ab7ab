// The list of operations of a run: pairs of numbers, and each of them as a value.
ghost use Rattle.std.specs.Prelude.{◌≡◌};
ghost use Rattle.conditions.specs.Operations.{operation_good, operations_good, operation, pair_of};

// An operation of a run: to add polynomial k, to take the lead or to give the full sum.
#[derive(Clone, Copy, Debug, PartialEq, Eq)]
pub enum Operation {
    Add(usize),
    Lead,
    Sum,
}

impl Operation {
    // The operation of a pair of a list that passed the check.
    // Kept: the C interface: `damselbuckle_run` takes a code and an index. The list is checked before, so `TryFrom`
    // would answer an error that cannot come; and `operation` gives `Sum` for every code but 1 and 2.
    pub fn of(code: usize, k: usize) -> Operation
        ensures { result ≡ operation code k }
    {
        match code {
            1 => Operation::Add(k),
            2 => Operation::Lead,
            _ => Operation::Sum,
        }
    }

    // Its pair: (1, k), (2, 0) or (3, 0).
    pub fn pair(self) -> [usize; 2]
        ensures { result ≡ pair_of self }
    {
        match self {
            Operation::Add(k) => [1, k],
            Operation::Lead => [2, 0],
            Operation::Sum => [3, 0],
        }
    }
}

// Whether the list has whole pairs, each of them an operation on so many polynomials.
pub fn operations_good(ops: &[usize], polynomials: usize) -> bool
    ensures { result ≡ operations_good ops.now polynomials }
{
    let (pairs, left) = ops.as_chunks::<2>();
    left.is_empty()
        && pairs
            .iter()
            .all(|&[code, k]| operation_good(code, k, polynomials))
}

// Whether the pair is (1, k) with polynomial k there, (2, 0) or (3, 0).
#[tactic(auto, unfolding(crate::specs::Operations::operation_good))]
fn operation_good(code: usize, k: usize, polynomials: usize) -> bool
    ensures { result ≡ operation_good code k polynomials }
{
    match code {
        1 => k < polynomials,
        2 | 3 => k == 0,
        _ => false,
    }
}
