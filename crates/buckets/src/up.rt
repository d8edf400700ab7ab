// A merge within the work space: of a polynomial with one of buckets 0 to 4, to the bucket's free area.
ghost use Rattle.std.specs.Prelude.{◌≡◌};
ghost use Prim.Native.Nat.{◌+◌, compare};
ghost use Rattle.polynomial.specs.Terms.{terms};
ghost use Rattle.merge_common.specs.Lent.{part};
ghost use Rattle.merge_common.specs.Placing.{PlacedIn};
ghost use Rattle.space.specs.Space.{bucket_at, len_at, side_at};
ghost use Rattle.buckets.specs.Adding.{MergeUp};

use merge_areas::merge_areas;
use merge_common::copy::move_terms;
use merge_common::merging::Placed;
use space::state::{head_of, len_of, side_of};

// Merges the len terms at `from` with those of bucket i to its free area. An empty bucket costs nothing.
pub fn merge_up(
    p: u32,
    b: &[usize],
    i: usize,
    from: usize,
    len: usize,
    ww: &mut [u64],
    wc: &mut [u32],
) -> Placed
    requires { MergeUp p b.now i from len ww.old wc.old }
    ensures { PlacedIn compare p (terms (part from len ww.old) (part from len wc.old)) (bucket_at b.now ww.old wc.old i) (side_at b.now i) (side_at b.now i + (len + len_at b.now i)) ww.old wc.old ww.new wc.new result × (result.head + result.len ≡ side_at b.now i + (len + len_at b.now i)) }
{
    let n = len_of(b, i);
    let to = side_of(b, i);
    if n == 0 {
        move_terms::<u64>(ww, wc, from, to, len);
        return Placed {
            head: to,
            len,
            comparisons: 0,
        };
    }
    merge_areas::<u64>(p, ww, wc, from, len, head_of(b, i), n, to)
}
