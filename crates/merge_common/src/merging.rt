// What a merge makes, and the choice by flags, for the loops of all orders.
ghost use Rattle.std.specs.Prelude.{◌≡◌};
ghost use Prim.Native.Nat.{◌<◌, ◌≤◌, compare};
ghost use Rattle.residue.specs.Modular.{Modulus};
ghost use Rattle.polynomial.specs.Opening.{is_larger};
ghost use Rattle.merge_common.specs.Lent.{flag, chosen};
ghost use Rattle.merge_common.specs.Joining.{numbered, joined, joined_last, joined_by};

use crate::places::Key;
use residue::arithmetic::add;

// Where a merge lies, and the comparisons.
#[repr(C)]
#[derive(Clone, Copy)]
pub struct Placed {
    pub head: usize,
    pub len: usize,
    pub comparisons: u64,
}

// What a turn makes of a term of each list: the term to store, how many of the left and of the
// right list it is made of, and how many it is, none where like terms cancel.
#[derive(Clone, Copy)]
pub struct Joined<K> {
    pub key: K,
    pub coef: u32,
    pub left: usize,
    pub right: usize,
    pub kept: usize,
}

// Whether the key x is larger than y.
pub fn larger<K: Key>(x: K, y: K) -> bool
    ensures { result ≡ is_larger (compare (K.number x) (K.number y)) }
{
    let by = x.deciding(y);
    by.second < by.first
}

// x where the flag is set, and else y.
pub fn choose<T: Copy>(f: bool, x: T, y: T) -> T
    ensures { result ≡ chosen (flag f) x y }
{
    if f { x } else { y }
}

// One of two terms, or the sum of like ones, without a branch: of two leads the one with the larger key, of
// two last terms (`LAST`) the one with the smaller.
// Kept: here and below, `Modulus p`, `c < p` and `d < p`: a type of coefficient that says so has to hold p as
// well. The lent slices hold plain numbers, so each turn would make two of them, for this call alone.
fn join_by<K: Key, const LAST: bool>(x: K, c: u32, y: K, d: u32, p: u32) -> Joined<K>
    requires { Modulus p × (c < p) × (d < p) }
    ensures { numbered K.number result ≡ joined_by LAST (K.number x) c (K.number y) d p }
{
    let by = x.deciding(y);
    let above = larger(by.first, by.second);
    let below = larger(by.second, by.first);
    // x alone is taken where l is set, y alone where m is, and both where neither is
    let l = choose(LAST, below, above);
    let m = choose(LAST, above, below);
    let sum = add(c, d, p);
    let coef = choose(l | m, choose(l, c, d), sum);
    Joined {
        key: choose(m, y, x),
        coef,
        left: usize::from(!m),
        right: usize::from(!l),
        kept: usize::from(coef != 0),
    }
}

// The larger of two leads, or the sum of like ones.
pub fn join<K: Key>(x: K, c: u32, y: K, d: u32, p: u32) -> Joined<K>
    requires { Modulus p × (c < p) × (d < p) }
    ensures { numbered K.number result ≡ joined (K.number x) c (K.number y) d p }
{
    join_by::<K, false>(x, c, y, d, p)
}

// The smaller of two last terms, or the sum of like ones.
pub fn join_last<K: Key>(x: K, c: u32, y: K, d: u32, p: u32) -> Joined<K>
    requires { Modulus p × (c < p) × (d < p) }
    ensures { numbered K.number result ≡ joined_last (K.number x) c (K.number y) d p }
{
    join_by::<K, true>(x, c, y, d, p)
}
