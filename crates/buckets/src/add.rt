// An addition to the buckets.
ghost use Rattle.std.specs.Prelude.{◌≡◌, ◌++◌, map, length};
ghost use Prim.Native.Nat.{◌≤◌, compare};
ghost use Rattle.monomial.specs.Words.{key_of, from_key};
ghost use Rattle.polynomial.specs.Terms.{terms};
ghost use Rattle.merge_common.specs.Lent.{part};
ghost use Rattle.space.specs.Space.{spaces, Slices};
ghost use Rattle.buckets.specs.Adding.{Added, WordAddition, Addition, AddDone, Carry, CarryDone, free, most_small};
ghost use Rattle.buckets.specs.Last.{Large, LastMerged, last_at};

use crate::last::merge_last;
use crate::level::{Level, level_for};
use crate::up::merge_up;
use limits::MOST_TERMS;
use merge_common::keys::{put_keys, put_terms};
use polynomial::ring::Ring;
use space::state::{head_of, place, side_of, turn};

// Past the areas, the work space has room for a polynomial that is small: one of buckets 0 to 4 takes it.
pub const FREE: usize = 5456;

// The most terms that a small polynomial has: the capacity of bucket 4.
pub const MOST_SMALL: usize = 1024;

// Adds the polynomial f, and gives the comparisons.
// Kept: the lent slices as parameters of their own, with `WordAddition`, `Slices` and `Addition` on all of them at
// once, here and below: where a slice is a `&mut` field of a struct and is passed on as `&[T]`, a proof knows its
// length afterwards and no element, so each function would take the struct apart into these slices first.
pub fn add_polynomial(
    ring: Ring,
    b: &mut [usize],
    fw: &[u64],
    fc: &[u32],
    sw: &mut [u64],
    sc: &mut [u32],
    ww: &mut [u64],
    wc: &mut [u32],
) -> u64
    requires { WordAddition ring.order ring.p (spaces b.old ww.old wc.old sw.old sc.old) fw.now fc.now × Slices ww.old wc.old sw.old sc.old }
    ensures { Added ring.order ring.p (spaces b.old ww.old wc.old sw.old sc.old) (terms fw.now fc.now) (spaces b.new ww.new wc.new sw.new sc.new) result }
{
    if fw.len() > MOST_SMALL {
        return add_large(ring, b, fw, fc, sw, sc);
    }
    put_and_add(ring, b, fw, fc, sw, sc, ww, wc)
}

// A small polynomial is put past the areas of the work space, with keys for words, and added from there.
// Kept: this and `add_large` beside `add_tail` and `add_large` of `reducer::divide`, which fill otherwise. With the
// filling as a closure its contract (`F.post`) would have to say what it leaves in two lent slices, in the work
// space from `FREE` on and in local arrays alike, and what it leaves as it was. And `add_large` here fills no
// coefficients: `merge_last` reads them where they are lent, and a common function would copy them.
fn put_and_add(
    ring: Ring,
    b: &mut [usize],
    fw: &[u64],
    fc: &[u32],
    sw: &mut [u64],
    sc: &mut [u32],
    ww: &mut [u64],
    wc: &mut [u32],
) -> u64
    requires { WordAddition ring.order ring.p (spaces b.old ww.old wc.old sw.old sc.old) fw.now fc.now × Slices ww.old wc.old sw.old sc.old × (length fw.now ≤ most_small) }
    ensures { Added ring.order ring.p (spaces b.old ww.old wc.old sw.old sc.old) (terms fw.now fc.now) (spaces b.new ww.new wc.new sw.new sc.new) result }
{
    put_terms::<u64>(ring.order, fw, fc, ww, wc, FREE);
    add_small(ring.p, b, fw.len(), sw, sc, ww, wc)
}

// A polynomial that is not small goes to the last bucket. Its local array of 32 KiB is to be made only where it
// is called: each page of a frame is touched at each call, and the additions of a run are mostly small.
// Kept: a fixed array of the most terms, as the engine has no heap.
#[inline(never)]
fn add_large(
    ring: Ring,
    b: &mut [usize],
    fw: &[u64],
    fc: &[u32],
    sw: &mut [u64],
    sc: &mut [u32],
) -> u64
    requires { Large ring.order ring.p b.old fw.now fc.now sw.old sc.old }
    ensures { LastMerged ring.p b.old (terms (map (key_of ring.order) fw.now) fc.now) (last_at b.old sw.old sc.old) sw.new sc.new b.new result × (map (from_key ring.order) (map (key_of ring.order) fw.now) ≡ fw.now) }
{
    let mut keys = [0u64; MOST_TERMS];
    put_keys::<u64>(ring.order, fw, &mut keys, 0);
    let n = fw.len();
    merge_last(ring.p, b, &keys[0..n], fc, sw, sc)
}

// Adds the polynomial f of n terms that lies, with keys for words, past the areas of the work space, and
// gives the comparisons. A zero f changes nothing and costs nothing.
pub fn add_small(
    p: u32,
    b: &mut [usize],
    n: usize,
    sw: &mut [u64],
    sc: &mut [u32],
    ww: &mut [u64],
    wc: &mut [u32],
) -> u64
    requires { Addition compare p b.old (terms (part free n ww.old) (part free n wc.old)) (ww.old ++ sw.old) (wc.old ++ sc.old) × Slices ww.old wc.old sw.old sc.old × (n ≤ most_small) }
    ensures { AddDone compare p b.old (terms (part free n ww.old) (part free n wc.old)) (ww.old ++ sw.old) (wc.old ++ sc.old) (ww.new ++ sw.new) (wc.new ++ sc.new) b.new result }
{
    if n == 0 {
        return 0;
    }
    let l = level_for(n);
    carry(p, b, l, FREE, n, sw, sc, ww, wc)
}

// Merges so many terms at `first` with the lowest bucket, to its free area. While the result is larger than the
// bucket, the bucket is emptied, and the result merged with the next one; the last one takes what comes.
// Kept: `while`: a Level goes on by `next`, with its zone and its capacity. Over `l.bucket..5` a number that is
// not read would be counted beside it, and the invariant would have to say that it is the Level's.
fn carry(
    p: u32,
    b: &mut [usize],
    lowest: Level,
    first: usize,
    amount: usize,
    sw: &mut [u64],
    sc: &mut [u32],
    ww: &mut [u64],
    wc: &mut [u32],
) -> u64
    requires { Carry p b.old lowest.bucket first amount ww.old wc.old sw.old sc.old }
    ensures { CarryDone p b.old lowest.bucket (terms (part first amount ww.old) (part first amount wc.old)) (ww.old ++ sw.old) (wc.old ++ sc.old) b.new (ww.new ++ sw.new) (wc.new ++ sc.new) result }
{
    let mut l = lowest;
    let mut from = first;
    let mut len = amount;
    let mut n: u64 = 0;
    while l.bucket < 5 {
        let side = side_of(b, l.bucket);
        let m = merge_up(p, b, l.bucket, from, len, ww, wc);
        if m.len <= l.cap {
            turn(b, l.bucket, m.head, m.len, l.other_area(side));
            return n + m.comparisons;
        }
        let h = head_of(b, l.bucket);
        place(b, l.bucket, h, 0);
        from = m.head;
        len = m.len;
        n += m.comparisons;
        l = l.next();
    }
    let end = from + len;
    n + merge_last(p, b, &ww[from..end], &wc[from..end], sw, sc)
}
