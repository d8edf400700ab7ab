// Lists of words and of coefficients, each put from one slice into another or moved within one, and how many
// words a place has.
ghost use Rattle.std.specs.Prelude.{◌≡◌, ◌+◌, ◌-◌, ◌≤◌, length, drop, replicate};
ghost use Rattle.std.proofs.lemmas.List.Edits.{sets};
ghost use Rattle.place.specs.Numbers.{key_numbers, word_numbers, Whole};
ghost use Rattle.merge_common.specs.Lent.{rest_of, part, Apart};

use crate::places::Key;

// How many places a slice has.
pub fn count_places<K: Key>(ww: &[u64]) -> usize
    ensures { (result ≡ length (key_numbers K.width ww.now)) × (result ≡ length (word_numbers K.width ww.now)) }
{
    ww.len() / K::WORDS
}

// The places from place `from` up to `end`.
pub fn part_places<K: Key>(ww: &[u64], from: usize, end: usize) -> &[u64]
    requires { (from ≤ end) × (end ≤ length (key_numbers K.width ww.now)) }
    ensures { (key_numbers K.width result.now ≡ part from (end - from) (key_numbers K.width ww.now)) × Whole K.width result.now }
{
    let w = K::WORDS;
    let first = w * from;
    let bound = w * end;
    &ww[first..bound]
}

// The remaining part of whichever of two slices of words has not been used up.
// Kept: document 01 names this form; that by places, below, is made of it.
pub fn rest_words<'a>(a: &'a [u64], i: usize, b: &'a [u64], j: usize) -> &'a [u64]
    requires { (i ≤ length a.now) × (j ≤ length b.now) }
    ensures { result.now ≡ rest_of (drop i a.now) (drop j b.now) }
{
    if i < a.len() {
        return &a[i..];
    }
    &b[j..]
}

// The same by places of one word or two, which are whole: places i and j begin at words `a_word` and `b_word`.
pub fn rest_places<'a, K: Key>(a: &'a [u64], i: usize, b: &'a [u64], j: usize) -> &'a [u64]
    requires { Whole K.width a.now × Whole K.width b.now × (i ≤ length (key_numbers K.width a.now)) × (j ≤ length (key_numbers K.width b.now)) }
    ensures { (key_numbers K.width result.now ≡ rest_of (drop i (key_numbers K.width a.now)) (drop j (key_numbers K.width b.now))) × Whole K.width result.now }
{
    let a_word = K::WORDS * i;
    let b_word = K::WORDS * j;
    rest_words(a, a_word, b, b_word)
}

// Puts what is in src into dst from place `to` on.
pub fn put<T: Copy>(src: &[T], dst: &mut [T], to: usize)
    requires { to + length src.now ≤ length dst.old }
    ensures { dst.new ≡ sets dst.old to src.now }
{
    let end = to + src.len();
    dst[to..end].copy_from_slice(src);
}

// The same by places of one word or two, which are whole.
pub fn put_places<K: Key>(src: &[u64], dst: &mut [u64], to: usize)
    requires { Whole K.width src.now × (to + length (key_numbers K.width src.now) ≤ length (key_numbers K.width dst.old)) }
    ensures { key_numbers K.width dst.new ≡ sets (key_numbers K.width dst.old) to (key_numbers K.width src.now) }
{
    let at = K::WORDS * to;
    put(src, dst, at);
}

// Sets the n places from place `at` on to 0.
pub fn clear_places<K: Key>(s: &mut [u64], at: usize, n: usize)
    requires { at + n ≤ length (word_numbers K.width s.old) }
    ensures { word_numbers K.width s.new ≡ sets (word_numbers K.width s.old) at (replicate n 0) }
{
    let w = K::WORDS;
    let first = w * at;
    let count = w * n;
    s[first..first + count].fill(0);
}

// Puts the n terms from place `from` on also from `to` on, where the two places lie apart.
// Kept: one loop: terms are mostly few. Tried as two `copy_within`, in plain Rust: one term or two took 7 ns, and
// 5 by the loop; from eight terms on the loop is the slower one.
pub fn move_terms<K: Key>(ww: &mut [u64], wc: &mut [u32], from: usize, to: usize, n: usize)
    requires { (from + n ≤ length (key_numbers K.width ww.old)) × (to + n ≤ length (key_numbers K.width ww.old)) × (from + n ≤ length wc.old) × (to + n ≤ length wc.old) × Apart from n to n }
    ensures { (key_numbers K.width ww.new ≡ sets (key_numbers K.width ww.old) to (part from n (key_numbers K.width ww.old))) × (wc.new ≡ sets wc.old to (part from n wc.old)) }
{
    for i in 0..n {
        let source = from + i;
        let target = to + i;
        K::at(ww, source).put(ww, target);
        wc[target] = wc[source];
    }
}
