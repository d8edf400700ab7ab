// Where the six buckets lie: eighteen numbers, which are lent from call to call. The first six are
// the place of each bucket's lead, the next six each bucket's terms, and the next five where the free
// area of each of buckets 0 to 4 begins; the eighteenth, where that of bucket 5 would be, is not used. Places are
// counted through the work space and on through the bucket space. Taking a lead moves the head: nothing is shifted.
// Kept: no struct of the heads, the lengths and the free areas with methods. C lends the eighteen numbers as one
// slice (`probe_buckets_add` and the others), so each call would make such a struct and put it back, 36 moves; and
// `Laid` and the theorems of `space`, `buckets` and `search` are stated of that list (`Buckets`).
// Kept: no array of 18. Tried, and the proof did not close: the conversion of the lent slice to an array says
// nothing of what the slice holds at return.
ghost use Rattle.std.specs.Prelude.{◌≡◌, ◌<◌, length};
ghost use Rattle.space.specs.Space.{Laid, head_at, held_in, len_at, side_at, moved, turned, no_buckets};

// Where bucket 5 starts in the bucket space.
pub const LAST_START: usize = 1364;

// Six empty buckets: each of buckets 0 to 4 in its first area, and bucket 5 at the end of its place.
pub const EMPTY: [usize; 18] = [
    0, 16, 80, 336, 1360, 13652, 0, 0, 0, 0, 0, 0, 8, 48, 208, 848, 3408, 0,
];

// Leaves the six buckets empty.
pub fn clear(b: &mut [usize])
    requires { length b.old ≡ 18 }
    ensures { b.new ≡ no_buckets }
{
    b.copy_from_slice(&EMPTY);
}

// The place of bucket i's lead.
pub fn head_of(b: &[usize], i: usize) -> usize
    requires { (length b.now ≡ 18) × (i < 6) }
    ensures { result ≡ head_at b.now i }
{
    b[i]
}

// The terms of bucket i.
pub fn len_of(b: &[usize], i: usize) -> usize
    requires { (length b.now ≡ 18) × (i < 6) }
    ensures { result ≡ len_at b.now i }
{
    b[6 + i]
}

// Where the free area of bucket i begins.
pub fn side_of(b: &[usize], i: usize) -> usize
    requires { (length b.now ≡ 18) × (i < 5) }
    ensures { result ≡ side_at b.now i }
{
    b[12 + i]
}

// Bucket i has its lead at `head` and `len` terms.
pub fn place(b: &mut [usize], i: usize, head: usize, len: usize)
    requires { (length b.old ≡ 18) × (i < 6) }
    ensures { b.new ≡ moved b.old i head len }
{
    b[i] = head;
    b[6 + i] = len;
}

// Bucket i has its lead at `head` and `len` terms, and its free area at `side`.
pub fn turn(b: &mut [usize], i: usize, head: usize, len: usize, side: usize)
    requires { (length b.old ≡ 18) × (i < 5) }
    ensures { b.new ≡ turned b.old i head len side }
{
    place(b, i, head, len);
    b[12 + i] = side;
}

// The terms held.
pub fn held(b: &[usize]) -> usize
    requires { Laid b.now }
    ensures { result ≡ held_in b.now }
{
    len_of(b, 0) + len_of(b, 1) + len_of(b, 2) + len_of(b, 3) + len_of(b, 4) + len_of(b, 5)
}
