// Terms of a merge that are moved as they stand: the rest of a list below the other one's last term, and what
// is left of one list where the other is used up.
ghost use Rattle.std.specs.Prelude.{◌≡◌, ◌⊎◌, ◌≤◌, ◌<◌, length, take, drop};
ghost use Rattle.place.specs.Numbers.{key_numbers};
ghost use Rattle.merge_common.specs.Lent.{rest_of};
ghost use Rattle.merge_areas.specs.Ways.{Ready, Rested, MovedLeft, Above, Source};

use crate::turns::Ends;
use merge_common::copy::{count_places, move_terms, part_places, rest_places};
use merge_common::places::Key;

// The end of the terms at places `from` up to `end` that are not below the key `last`.
fn above<K: Key>(ww: &[u64], from: usize, end: usize, last: K) -> usize
    requires { (from ≤ end) × (end ≤ length (key_numbers K.width ww.now)) }
    ensures { Above (key_numbers K.width ww.now) from end (K.number last) result }
{
    for k in (from..end).rev() {
        let by = last.deciding(K::at(ww, k));
        if by.first <= by.second {
            return k + 1;
        }
    }
    from
}

// How many terms are left of two lists, those from i up to ie and those from j up to je, of which one is
// used up: as many as there are places in what the tail function gives.
fn rest_len<K: Key>(ww: &[u64], i: usize, ie: usize, j: usize, je: usize) -> usize
    requires { (i ≤ ie) × (j ≤ je) × (ie ≤ length (key_numbers K.width ww.now)) × (je ≤ length (key_numbers K.width ww.now)) }
    ensures { result ≡ length (rest_of (drop i (take ie (key_numbers K.width ww.now))) (drop j (take je (key_numbers K.width ww.now)))) }
{
    let left = part_places::<K>(ww, 0, ie);
    let right = part_places::<K>(ww, 0, je);
    count_places::<K>(rest_places::<K>(left, i, right, j))
}

// Where the terms begin that are left of two lists, of which one is used up.
pub fn source(i: usize, ie: usize, j: usize) -> usize
    ensures { Source i ie j result }
{
    if i < ie { i } else { j }
}

// Moves the rest of either list that is below the other one's last term to the end of the free places.
// Kept: `Ready` and the bounds of `s`, here and below: the lent slices, of which `Ready` speaks, are not in `Ends`,
// and a list may be used up.
pub fn move_rest<K: Key>(ww: &mut [u64], wc: &mut [u32], s: Ends) -> Ends
    requires { Ready (key_numbers K.width ww.old) wc.old s × (s.i < s.ie) × (s.j < s.je) }
    ensures { Rested (key_numbers K.width ww.old) wc.old s (key_numbers K.width ww.new) wc.new result }
{
    let ie = s.ie;
    let je = s.je;
    let x = K::at(ww, ie - 1);
    let y = K::at(ww, je - 1);
    let i = above(ww, s.i, ie, y);
    let j = above(ww, s.j, je, x);
    let left = rest_len::<K>(ww, i, ie, j, je);
    let from = source(i, ie, j);
    let e = s.e - left;
    move_terms::<K>(ww, wc, from, e, left);
    Ends {
        ie: i,
        je: j,
        e,
        ..s
    }
}

// Moves what is left of one list, where the other is used up, to the front of the free places.
pub fn move_left<K: Key>(ww: &mut [u64], wc: &mut [u32], s: Ends) -> Ends
    requires { Ready (key_numbers K.width ww.old) wc.old s × ((s.ie ≤ s.i) ⊎ (s.je ≤ s.j)) }
    ensures { MovedLeft (key_numbers K.width ww.old) wc.old s (key_numbers K.width ww.new) wc.new result }
{
    let left = s.ie - s.i + (s.je - s.j);
    let from = source(s.i, s.ie, s.j);
    let d = s.d;
    move_terms::<K>(ww, wc, from, d, left);
    Ends {
        i: s.ie,
        j: s.je,
        d: d + left,
        turns: s.turns + left as u64,
        ..s
    }
}
