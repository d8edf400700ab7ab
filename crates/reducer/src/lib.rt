// Reductions in lent space: the normal form of one polynomial by others.
// Kept: the lent slices as parameters of their own, in `divide`, `step` and `steps`. In a struct of `&mut` slices each
// function would have to ensure of every field that it still has the ghost name of the slice that was lent; and of a
// field that is passed on as `&[T]`, without a name of its own first, a proof knows the length, and no element.
#![tactic(auto)]

pub mod divide; // a step that divides its lead
pub mod step; // one step
pub mod steps; // the steps in turn
