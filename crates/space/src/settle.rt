// The spaces as they are at return: "Places past a bucket's terms are 0 at return. The work space,
// 8,192 places for each, is all 0 at return." The last bucket, whose keys lie in the bucket space, comes
// first: from then on that space holds words alone.
ghost use Rattle.std.specs.Prelude.{◌≡◌, ◌+◌, ◌≤◌, length, replicate, ◌++◌, map};
ghost use Rattle.std.proofs.lemmas.List.Edits.{sets};
ghost use Rattle.limits.specs.Limits.{bucket_places, work_places};
ghost use Rattle.place.specs.Numbers.{key_numbers, word_numbers, from_key_by};
ghost use Rattle.merge_common.specs.Lent.{part};
ghost use Rattle.space.specs.Space.{Laid, settled, spaces, words_by, AtReturn};
ghost use Rattle.space.specs.Rows.{last_start, first_rows, last_row};

use crate::state::{LAST_START, head_of, len_of};
use limits::{MOST_TERMS, WORK_PLACES};
use merge_common::copy::{clear_places, part_places, put};
use merge_common::keys::put_words_of;
use merge_common::places::Key;
use monomial::order::Order;

// Leaves the spaces as document 01 has them at return: each bucket's terms, their keys made words
// again, from its start on and 0 past them, the work space all 0.
pub fn settle<K: Key>(
    order: Order,
    b: &[usize],
    sw: &mut [u64],
    sc: &mut [u32],
    ww: &mut [u64],
    wc: &mut [u32],
)
    requires { Laid b.now × (length (key_numbers K.width sw.old) ≡ bucket_places) × (length sc.old ≡ bucket_places) × (length (key_numbers K.width ww.old) ≡ work_places) × (length wc.old ≡ work_places) }
    ensures { AtReturn (words_by K.width order (spaces b.now (key_numbers K.width ww.old) wc.old (key_numbers K.width sw.old) sc.old)) (word_numbers K.width sw.new) sc.new (word_numbers K.width ww.new) wc.new }
{
    settle_buckets::<K>(order, b, sw, sc, ww, wc);
    let places = wc.len();
    clear_places::<K>(ww, 0, places);
    wc.fill(0);
}

// Puts each bucket's terms from the bucket's start on, the words of its keys and its coefficients,
// and 0 past them.
pub fn settle_buckets<K: Key>(
    order: Order,
    b: &[usize],
    sw: &mut [u64],
    sc: &mut [u32],
    ww: &[u64],
    wc: &[u32],
)
    requires { Laid b.now × (length (key_numbers K.width sw.old) ≡ bucket_places) × (length sc.old ≡ bucket_places) × (length (key_numbers K.width ww.now) ≡ work_places) × (length wc.now ≡ work_places) }
    ensures { (word_numbers K.width sw.new ≡ settled (from_key_by K.width order) b.now (key_numbers K.width ww.now ++ key_numbers K.width sw.old)) × (sc.new ≡ settled (λ c. c) b.now (wc.now ++ sc.old)) }
{
    settle_last::<K>(order, b, sw, sc);
    settle_first::<K>(order, b, sw, sc, ww, wc);
}

// The last bucket, whose terms lie in the bucket space itself.
fn settle_last<K: Key>(order: Order, b: &[usize], sw: &mut [u64], sc: &mut [u32])
    requires { Laid b.now × (length (key_numbers K.width sw.old) ≡ bucket_places) × (length sc.old ≡ bucket_places) }
    ensures { (word_numbers K.width sw.new ≡ sets (word_numbers K.width sw.old) last_start (last_row (from_key_by K.width order) b.now (key_numbers K.width sw.old))) × (sc.new ≡ sets sc.old last_start (last_row (λ c. c) b.now sc.old)) }
{
    let h = head_of(b, 5);
    let n = len_of(b, 5);
    let past = LAST_START + n;
    let left = MOST_TERMS - n;
    pull_terms::<K>(order, sw, sc, h - WORK_PLACES, LAST_START, n);
    clear_places::<K>(sw, past, left);
    sc[past..past + left].fill(0);
}

// The others, whose terms lie in the work space.
fn settle_first<K: Key>(
    order: Order,
    b: &[usize],
    sw: &mut [u64],
    sc: &mut [u32],
    ww: &[u64],
    wc: &[u32],
)
    requires { Laid b.now × (length (key_numbers K.width sw.old) ≡ bucket_places) × (length sc.old ≡ bucket_places) × (length (key_numbers K.width ww.now) ≡ work_places) × (length wc.now ≡ work_places) }
    ensures { (word_numbers K.width sw.new ≡ sets (word_numbers K.width sw.old) 0 (first_rows (from_key_by K.width order) b.now (key_numbers K.width ww.now))) × (sc.new ≡ sets sc.old 0 (first_rows (λ c. c) b.now wc.now)) }
{
    let mut start = 0;
    let mut cap = 4;
    for i in 0..5 {
        let h = head_of(b, i);
        let n = len_of(b, i);
        let end = h + n;
        let past = start + n;
        let left = cap - n;
        let row = part_places::<K>(ww, h, end);
        put_words_of::<K>(order, row, sw, start);
        clear_places::<K>(sw, past, left);
        put(&wc[h..end], sc, start);
        sc[past..past + left].fill(0);
        start += cap;
        cap *= 4;
    }
}

// Puts the n terms from place `from` on from `to` on, which is no later place, with the words of their
// keys. The two may overlap.
pub fn pull_terms<K: Key>(
    order: Order,
    sw: &mut [u64],
    sc: &mut [u32],
    from: usize,
    to: usize,
    n: usize,
)
    requires { (from + n ≤ length (key_numbers K.width sw.old)) × (from + n ≤ length sc.old) × (to ≤ from) }
    ensures { (word_numbers K.width sw.new ≡ sets (word_numbers K.width sw.old) to (map (from_key_by K.width order) (part from n (key_numbers K.width sw.old)))) × (sc.new ≡ sets sc.old to (part from n sc.old)) }
{
    for i in 0..n {
        let source = from + i;
        let target = to + i;
        K::at(sw, source).word(order).put(sw, target);
        sc[target] = sc[source];
    }
}
