// A bucket's lead, which lies in the work space for buckets 0 to 4, and in the bucket space for
// bucket 5.
ghost use Rattle.std.specs.Prelude.{◌≡◌, ◌++◌, ◌<◌, length, get_or, set};
ghost use Rattle.limits.specs.Limits.{bucket_places, work_places};
ghost use Rattle.place.specs.Numbers.{key_numbers};
ghost use Rattle.space.specs.Space.{Laid, head_at, len_at};

use crate::state::head_of;
use limits::WORK_PLACES;
use merge_common::places::Key;

// The key of bucket i's lead.
// Kept: here and below, `0 < len_at b i`: buckets may be empty, so no type of b has it.
pub fn lead_key<K: Key>(b: &[usize], ww: &[u64], sw: &[u64], i: usize) -> K
    requires { Laid b.now × (i < 6) × (0 < len_at b.now i) × (length (key_numbers K.width ww.now) ≡ work_places) × (length (key_numbers K.width sw.now) ≡ bucket_places) }
    ensures { K.number result ≡ get_or (key_numbers K.width ww.now ++ key_numbers K.width sw.now) (head_at b.now i) 0 }
{
    let h = head_of(b, i);
    if i < 5 {
        K::at(ww, h)
    } else {
        K::at(sw, h - WORK_PLACES)
    }
}

// The coefficient of bucket i's lead.
// Kept: `Key` reads one word or two of a slice of words; a coefficient is one number of its own slice.
pub fn lead_coef(b: &[usize], wc: &[u32], sc: &[u32], i: usize) -> u32
    requires { Laid b.now × (i < 6) × (0 < len_at b.now i) × (length wc.now ≡ work_places) × (length sc.now ≡ bucket_places) }
    ensures { result ≡ get_or (wc.now ++ sc.now) (head_at b.now i) 0 }
{
    let h = head_of(b, i);
    if i < 5 { wc[h] } else { sc[h - WORK_PLACES] }
}

// Puts another coefficient at bucket i's lead.
pub fn put_lead_coef(b: &[usize], wc: &mut [u32], sc: &mut [u32], i: usize, coef: u32)
    requires { Laid b.now × (i < 6) × (0 < len_at b.now i) × (length wc.old ≡ work_places) × (length sc.old ≡ bucket_places) }
    ensures { wc.new ++ sc.new ≡ set (wc.old ++ sc.old) (head_at b.now i) coef }
{
    let h = head_of(b, i);
    if i < 5 {
        wc[h] = coef;
    } else {
        sc[h - WORK_PLACES] = coef;
    }
}
