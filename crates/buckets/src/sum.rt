// The full sum of the buckets.
ghost use Rattle.std.specs.Prelude.{◌++◌};
ghost use Rattle.buckets.specs.Summing.{Summation, SumDone, Areas, AreasSummed};

use crate::last::merge_last;
use limits::WORK_PLACES;
use merge_areas::merge_areas;
use merge_common::merging::Placed;
use space::state::{clear, head_of, len_of, side_of};

// Merges the buckets in turn, from zero and from the lowest up, each to the free area of the higher one,
// the last in its place, and leaves them empty. Gives where the sum lies in the bucket space, with keys for words.
pub fn full_sum(
    p: u32,
    b: &mut [usize],
    sw: &mut [u64],
    sc: &mut [u32],
    ww: &mut [u64],
    wc: &mut [u32],
) -> Placed
    requires { Summation p b.old ww.old wc.old sw.old sc.old }
    ensures { SumDone p b.old (ww.old ++ sw.old) (wc.old ++ sc.old) b.new sw.new sc.new result }
{
    let low = sum_areas(p, b, ww, wc);
    let at = low.head;
    let end = at + low.len;
    let n = merge_last(p, b, &ww[at..end], &wc[at..end], sw, sc);
    let head = head_of(b, 5) - WORK_PLACES;
    let len = len_of(b, 5);
    clear(b);
    Placed {
        head,
        len,
        comparisons: low.comparisons + n,
    }
}

// Merges buckets 0 to 4 in turn, in the work space.
fn sum_areas(p: u32, b: &[usize], ww: &mut [u64], wc: &mut [u32]) -> Placed
    requires { Areas p b.now ww.old wc.old }
    ensures { AreasSummed p b.now ww.old wc.old ww.new wc.new result }
{
    let mut head = 0;
    let mut len = 0;
    let mut n: u64 = 0;
    for i in 0..5 {
        let h = head_of(b, i);
        let held = len_of(b, i);
        if held == 0 {
            continue;
        }
        if len == 0 {
            head = h;
            len = held;
            continue;
        }
        let m = merge_areas::<u64>(p, ww, wc, head, len, h, held, side_of(b, i));
        head = m.head;
        len = m.len;
        n += m.comparisons;
    }
    Placed {
        head,
        len,
        comparisons: n,
    }
}
