// Terms moved up within a space.
ghost use Rattle.std.specs.Prelude.{◌≡◌, ◌+◌, ◌-◌, ◌≤◌, length};
ghost use Rattle.std.proofs.lemmas.List.Edits.{sets};
ghost use Rattle.place.specs.Numbers.{key_numbers};
ghost use Rattle.merge_common.specs.Lent.{part};

use crate::places::Key;

// Moves the terms at places `from` up to k so that they end at place j, and gives their new place.
pub fn close_gap<K: Key>(sw: &mut [u64], sc: &mut [u32], from: usize, k: usize, j: usize) -> usize
    requires { (from ≤ k) × (k ≤ j) × (j ≤ length (key_numbers K.width sw.old)) × (j ≤ length sc.old) }
    ensures { (result ≡ from + (j - k)) × (key_numbers K.width sw.new ≡ sets (key_numbers K.width sw.old) result (part from (k - from) (key_numbers K.width sw.old))) × (sc.new ≡ sets sc.old result (part from (k - from) sc.old)) }
{
    let gap = j - k;
    if gap == 0 {
        return from;
    }
    let head = from + gap;
    shift_terms::<K>(sw, sc, from, head, k - from);
    head
}

// Puts the n terms from place `from` on also from `to` on, the last one first: the places may overlap.
// Kept: one loop for words and coefficients, as in `move_terms`, where it was measured.
fn shift_terms<K: Key>(sw: &mut [u64], sc: &mut [u32], from: usize, to: usize, n: usize)
    requires { (from ≤ to) × (to + n ≤ length (key_numbers K.width sw.old)) × (to + n ≤ length sc.old) }
    ensures { (key_numbers K.width sw.new ≡ sets (key_numbers K.width sw.old) to (part from n (key_numbers K.width sw.old))) × (sc.new ≡ sets sc.old to (part from n sc.old)) }
{
    for i in (0..n).rev() {
        let source = from + i;
        let target = to + i;
        K::at(sw, source).put(sw, target);
        sc[target] = sc[source];
    }
}
