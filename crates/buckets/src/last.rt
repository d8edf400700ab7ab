// The last bucket, which lies in the bucket space: a merge into it, in place.
ghost use Rattle.polynomial.specs.Terms.{terms};
ghost use Rattle.buckets.specs.Last.{MergeLast, LastMerged, Roomy, Shifted, last_at};

use limits::{BUCKET_PLACES, WORK_PLACES};
use merge_common::shift::close_gap;
use merge_in::in_place::merge_into;
use space::state::{LAST_START, head_of, len_of, place};

// Merges the polynomial f into the last bucket, and gives the comparisons.
pub fn merge_last(
    p: u32,
    b: &mut [usize],
    fw: &[u64],
    fc: &[u32],
    sw: &mut [u64],
    sc: &mut [u32],
) -> u64
    requires { MergeLast p b.old fw.now fc.now sw.old sc.old }
    ensures { LastMerged p b.old (terms fw.now fc.now) (last_at b.old sw.old sc.old) sw.new sc.new b.new result }
{
    let n = len_of(b, 5);
    let h = make_room(head_of(b, 5) - WORK_PLACES, n, fw.len(), sw, sc);
    let m = merge_into::<u64>(p, fw, fc, sw, sc, h, h + n);
    place(b, 5, WORK_PLACES + m.head, m.len);
    m.comparisons
}

// The n terms at place h of the last bucket: where they have too little room in front of them for `more`
// terms, they are moved to its end. Gives their place.
fn make_room(h: usize, n: usize, more: usize, sw: &mut [u64], sc: &mut [u32]) -> usize
    requires { Roomy h n more sw.old sc.old }
    ensures { Shifted h n more sw.old sc.old sw.new sc.new result }
{
    if h >= LAST_START + more {
        return h;
    }
    close_gap::<u64>(sw, sc, h, h + n, BUCKET_PLACES)
}
