// How many words a monomial has: one in up to six variables, two in up to twelve. The contracts name it; in the
// code it is `WORDS` of `merge_common::places::Key`.
#[derive(Clone, Copy)]
pub enum Width {
    One,
    Two,
}
