// The merge of two areas of the work space to a third one, from both ends, for keys of one word or two.
// Kept: words and coefficients are two slices, here, in `rest` and in `turns`, as C lends them (`damselbuckle_run`).
#![tactic(auto)]

ghost use Rattle.std.specs.Prelude.{◌≡◌};
ghost use Prim.Native.Nat.{◌+◌, compare};
ghost use Rattle.polynomial.specs.Terms.{terms};
ghost use Rattle.place.specs.Numbers.{key_numbers};
ghost use Rattle.merge_common.specs.Lent.{part};
ghost use Rattle.merge_common.specs.Placing.{PlacedIn};
ghost use Rattle.merge_areas.specs.Areas.{Areas};

use crate::rest::{move_left, move_rest};
use crate::turns::{Ends, both_ends, one_end};
use merge_common::merging::Placed;
use merge_common::places::Key;
use merge_common::shift::close_gap;

pub mod rest; // terms that are moved as they stand
pub mod turns; // the turns of the merge

// Merges the n terms at place a of the work space with the m terms at place b, both not empty, to the
// places from `to` up to to + n + m, which lie apart from both. The result ends there. The rest of a list
// below the other one's last term is moved first; then a turn in front and one at the back wait for nothing
// of each other. What is stored in front is moved up to the rest over the places of like terms.
// Kept: eight parameters: the callers have the place and the length of each area apart, as variables of a loop or
// as C gives them, so a struct for an area would be made for each call, and the call would still name five numbers.
pub fn merge_areas<K: Key>(
    p: u32,
    ww: &mut [u64],
    wc: &mut [u32],
    a: usize,
    n: usize,
    b: usize,
    m: usize,
    to: usize,
) -> Placed
    requires { Areas p (key_numbers K.width ww.old) wc.old a n b m to }
    ensures { PlacedIn compare p (terms (part a n (key_numbers K.width ww.old)) (part a n wc.old)) (terms (part b m (key_numbers K.width ww.old)) (part b m wc.old)) to (to + (n + m)) (key_numbers K.width ww.old) wc.old (key_numbers K.width ww.new) wc.new result × (result.head + result.len ≡ to + (n + m)) }
{
    let end = to + (n + m);
    let all = Ends {
        i: a,
        ie: a + n,
        j: b,
        je: b + m,
        d: to,
        e: end,
        turns: 0,
    };
    let rested = move_rest::<K>(ww, wc, all);
    let both = both_ends::<K>(p, ww, wc, rested);
    let one = one_end::<K>(p, ww, wc, both);
    let done = move_left::<K>(ww, wc, one);
    let head = close_gap::<K>(ww, wc, to, done.d, done.e);
    Placed {
        head,
        len: end - head,
        comparisons: done.turns,
    }
}
