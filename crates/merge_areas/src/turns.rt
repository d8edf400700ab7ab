// The turns of a merge from both ends.
ghost use Rattle.std.specs.Prelude.{◌⊎◌, ◌≤◌, ◌<◌};
ghost use Rattle.place.specs.Numbers.{key_numbers};
ghost use Rattle.merge_areas.specs.Ways.{Ready, Reducing, Goes, Turned};

use merge_common::merging::{join, join_last};
use merge_common::places::Key;

// What is left of the two lists, at places i up to ie and j up to je, and the places d up to e that are
// free for their merge, with the turns made.
// Kept: `Ready`, `Reducing` and `s.i < s.ie` are clauses and no part of this type: the first two say what lies in
// the lent slices, which it does not hold, and a list may be used up.
#[derive(Clone, Copy)]
pub struct Ends {
    pub i: usize,
    pub ie: usize,
    pub j: usize,
    pub je: usize,
    pub d: usize,
    pub e: usize,
    pub turns: u64,
}

// A turn in front: the larger lead is stored, or the sum of like ones, unless it is 0.
fn front<K: Key>(p: u32, ww: &mut [u64], wc: &mut [u32], s: Ends) -> Ends
    requires { Ready (key_numbers K.width ww.old) wc.old s × Reducing p (key_numbers K.width ww.old) wc.old s × (s.i < s.ie) × (s.j < s.je) }
    ensures { Turned p (key_numbers K.width ww.old) wc.old s (key_numbers K.width ww.new) wc.new result }
{
    let i = s.i;
    let j = s.j;
    let d = s.d;
    let t = join(K::at(ww, i), wc[i], K::at(ww, j), wc[j], p);
    t.key.put(ww, d);
    wc[d] = t.coef;
    Ends {
        i: i + t.left,
        j: j + t.right,
        d: d + t.kept,
        turns: s.turns + 1,
        ..s
    }
}

// A turn at the back: the smaller of the two last terms is stored, or the sum of like ones, unless it is 0.
// Kept: beside `front`. One function for both, with a const parameter as `join_by` has, would share the three lines
// from the join to the stores: the places before them and the result would have two forms by it, and so would what it
// is proved by (`front-step`, `back_step`).
fn back<K: Key>(p: u32, ww: &mut [u64], wc: &mut [u32], s: Ends) -> Ends
    requires { Ready (key_numbers K.width ww.old) wc.old s × Reducing p (key_numbers K.width ww.old) wc.old s × (s.i < s.ie) × (s.j < s.je) }
    ensures { Turned p (key_numbers K.width ww.old) wc.old s (key_numbers K.width ww.new) wc.new result }
{
    let i = s.ie - 1;
    let j = s.je - 1;
    let d = s.e - 1;
    let t = join_last(K::at(ww, i), wc[i], K::at(ww, j), wc[j], p);
    t.key.put(ww, d);
    wc[d] = t.coef;
    Ends {
        ie: s.ie - t.left,
        je: s.je - t.right,
        e: s.e - t.kept,
        turns: s.turns + 1,
        ..s
    }
}

// A turn in front and one at the back, while both lists have two terms.
pub fn both_ends<K: Key>(p: u32, ww: &mut [u64], wc: &mut [u32], s: Ends) -> Ends
    requires { Ready (key_numbers K.width ww.old) wc.old s × Reducing p (key_numbers K.width ww.old) wc.old s }
    ensures { Goes p (key_numbers K.width ww.old) wc.old s (key_numbers K.width ww.new) wc.new result }
{
    let mut t = s;
    // Kept: no plainer: both ends of both lists move, each by what a turn used.
    while t.ie - t.i >= 2 && t.je - t.j >= 2 {
        t = front::<K>(p, ww, wc, t);
        t = back::<K>(p, ww, wc, t);
    }
    t
}

// Turns in front until one list is used up.
pub fn one_end<K: Key>(p: u32, ww: &mut [u64], wc: &mut [u32], s: Ends) -> Ends
    requires { Ready (key_numbers K.width ww.old) wc.old s × Reducing p (key_numbers K.width ww.old) wc.old s }
    ensures { Goes p (key_numbers K.width ww.old) wc.old s (key_numbers K.width ww.new) wc.new result × ((result.ie ≤ result.i) ⊎ (result.je ≤ result.j)) }
{
    let mut t = s;
    // Kept: no plainer: the fronts of both lists move, each by what a turn used.
    while t.i < t.ie && t.j < t.je {
        t = front::<K>(p, ww, wc, t);
    }
    t
}
