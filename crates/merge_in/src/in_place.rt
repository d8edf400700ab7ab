// The merge of a lent polynomial with one that lies in a space, in place. Places are counted by keys.
ghost use Rattle.std.specs.Prelude.{◌≡◌, length};
ghost use Prim.Native.Nat.{◌+◌, ◌-◌, ◌≤◌, compare};
ghost use Rattle.std.proofs.lemmas.List.Edits.{sets};
ghost use Rattle.polynomial.specs.Terms.{terms};
ghost use Rattle.place.specs.Numbers.{key_numbers};
ghost use Rattle.merge_common.specs.Lent.{part};
ghost use Rattle.merge_common.specs.Placing.{PlacedIn};
ghost use Rattle.merge_in.specs.Placing.{Into};

use merge_common::copy::{part_places, put, put_places};
use merge_common::merging::{Placed, join};
use merge_common::places::Key;
use merge_common::shift::close_gap;

// Puts the terms of f from place i on to the places from k on.
fn put_rest<K: Key>(fw: &[u64], fc: &[u32], i: usize, sw: &mut [u64], sc: &mut [u32], k: usize)
    requires { (length fc.now ≡ length (key_numbers K.width fw.now)) × (i ≤ length fc.now) × (k + (length fc.now - i) ≤ length (key_numbers K.width sw.old)) × (k + (length fc.now - i) ≤ length sc.old) }
    ensures { (key_numbers K.width sw.new ≡ sets (key_numbers K.width sw.old) k (part i (length (key_numbers K.width fw.now) - i) (key_numbers K.width fw.now))) × (sc.new ≡ sets sc.old k (part i (length fc.now - i) fc.now)) }
{
    let rest = part_places::<K>(fw, i, fc.len());
    put_places::<K>(rest, sw, k);
    put(&fc[i..], sc, k);
}

// Merges the polynomial f with the one at places h up to e, towards the room in front of it: what is
// written stays behind what is read. Once f is used up, the other's terms stay, and the merged ones in
// front are moved up to them over the places of like terms.
pub fn merge_into<K: Key>(
    p: u32,
    fw: &[u64],
    fc: &[u32],
    sw: &mut [u64],
    sc: &mut [u32],
    h: usize,
    e: usize,
) -> Placed
    requires { Into p (key_numbers K.width fw.now) fc.now (key_numbers K.width sw.old) sc.old h e }
    ensures { PlacedIn compare p (terms (key_numbers K.width fw.now) fc.now) (terms (part h (e - h) (key_numbers K.width sw.old)) (part h (e - h) sc.old)) (h - length (key_numbers K.width fw.now)) e (key_numbers K.width sw.old) sc.old (key_numbers K.width sw.new) sc.new result }
{
    let from = h - fc.len();
    let mut i = 0;
    let mut j = h;
    let mut k = from;
    let mut n: u64 = 0;
    // Kept: no plainer: two places go forward, each by what the turn used.
    while i < fc.len() && j < e {
        let t = join(K::at(fw, i), fc[i], K::at(sw, j), sc[j], p);
        t.key.put(sw, k);
        sc[k] = t.coef;
        i += t.left;
        j += t.right;
        k += t.kept;
        n += 1;
    }
    if i < fc.len() {
        put_rest::<K>(fw, fc, i, sw, sc, k);
        return Placed {
            head: from,
            len: k + (fc.len() - i) - from,
            comparisons: n,
        };
    }
    let head = close_gap::<K>(sw, sc, from, k, j);
    Placed {
        head,
        len: e - head,
        comparisons: n,
    }
}
