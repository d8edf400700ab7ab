// Monomials put as keys, and keys put as monomials.
ghost use Rattle.std.specs.Prelude.{◌≡◌, map, ◌+◌, ◌≤◌, length};
ghost use Rattle.std.proofs.lemmas.List.Edits.{sets};
ghost use Rattle.place.specs.Numbers.{key_numbers, word_numbers, key_by, from_key_by};

use crate::copy::count_places;
use crate::places::Key;
use monomial::order::Order;

// Puts the keys of the monomials of src into dst from place `to` on. They are the keys of no others.
pub fn put_keys<K: Key>(order: Order, src: &[u64], dst: &mut [u64], to: usize)
    requires { to + length (word_numbers K.width src.now) ≤ length (key_numbers K.width dst.old) }
    ensures { (key_numbers K.width dst.new ≡ sets (key_numbers K.width dst.old) to (map (key_by K.width order) (word_numbers K.width src.now))) × (map (from_key_by K.width order) (map (key_by K.width order) (word_numbers K.width src.now)) ≡ word_numbers K.width src.now) }
{
    for i in 0..count_places::<K>(src) {
        K::at(src, i).key(order).put(dst, to + i);
    }
}

// Puts the terms of the words fw and the coefficients fc from place `to` on, with keys for words. They are
// mostly few, so that both go in one loop.
pub fn put_terms<K: Key>(
    order: Order,
    fw: &[u64],
    fc: &[u32],
    ww: &mut [u64],
    wc: &mut [u32],
    to: usize,
)
    requires { (length fc.now ≡ length (word_numbers K.width fw.now)) × (to + length (word_numbers K.width fw.now) ≤ length (key_numbers K.width ww.old)) × (to + length (word_numbers K.width fw.now) ≤ length wc.old) }
    ensures { (key_numbers K.width ww.new ≡ sets (key_numbers K.width ww.old) to (map (key_by K.width order) (word_numbers K.width fw.now))) × (wc.new ≡ sets wc.old to fc.now) × (map (from_key_by K.width order) (map (key_by K.width order) (word_numbers K.width fw.now)) ≡ word_numbers K.width fw.now) }
{
    for i in 0..fc.len() {
        let target = to + i;
        K::at(fw, i).key(order).put(ww, target);
        wc[target] = fc[i];
    }
}

// Puts the monomials of the keys of src into dst from place `to` on.
pub fn put_words_of<K: Key>(order: Order, src: &[u64], dst: &mut [u64], to: usize)
    requires { to + length (key_numbers K.width src.now) ≤ length (key_numbers K.width dst.old) }
    ensures { word_numbers K.width dst.new ≡ sets (word_numbers K.width dst.old) to (map (from_key_by K.width order) (key_numbers K.width src.now)) }
{
    for i in 0..count_places::<K>(src) {
        K::at(src, i).word(order).put(dst, to + i);
    }
}
