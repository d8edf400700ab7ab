// A search that only looks: where no lead is like the largest one before it, nothing is combined, and the
// buckets stay as they are.
ghost use Rattle.std.specs.Prelude.{◌≡◌, ◌++◌, ◌≤◌, length};
ghost use Rattle.limits.specs.Limits.{bucket_places, work_places};
ghost use Rattle.space.specs.Space.{Laid};
ghost use Rattle.search.specs.Largest.{met, largest_of, as_candidate, Looked};

use crate::candidate::Candidate;
use merge_common::merging::{choose, larger};
use space::leads::lead_key;
use space::state::len_of;

// The largest lead so far: its bucket and its key; how many buckets that are not empty were looked at, none where
// there is no lead, and how many leads were like the largest one before them.
#[derive(Clone, Copy)]
pub struct Largest {
    pub bucket: usize,
    pub key: u64,
    pub held: usize,
    pub like: usize,
}

impl Largest {
    // With the lead of one more bucket. It is chosen by flags, since a branch would often be foreseen wrongly.
    pub fn meet(self, bucket: usize, key: u64) -> Self
        requires { (self.held ≤ 6) × (self.like ≤ 6) }
        ensures { result ≡ met self bucket key }
    {
        let l = larger(key, self.key);
        Largest {
            bucket: choose(l, bucket, self.bucket),
            key: choose(l, key, self.key),
            held: self.held + 1,
            like: self.like + (key == self.key) as usize,
        }
    }

    // The lead as the search's candidate, with its coefficient and the search's comparisons.
    pub fn candidate(self, coef: u32) -> Candidate
        requires { 1 ≤ self.held }
        ensures { result ≡ as_candidate self coef }
    {
        Candidate {
            bucket: self.bucket,
            count: (self.held - 1) as u64,
            key: self.key,
            coef,
        }
    }
}

// Looks at the leads of all buckets.
pub fn largest_lead(b: &[usize], sw: &[u64], ww: &[u64]) -> Largest
    requires { Laid b.now × (length ww.now ≡ work_places) × (length sw.now ≡ bucket_places) }
    ensures { (result ≡ largest_of b.now (ww.now ++ sw.now) 6) × Looked b.now (ww.now ++ sw.now) result }
{
    let mut t = Largest {
        bucket: 0,
        key: 0,
        held: 0,
        like: 0,
    };
    for i in 0..6 {
        if len_of(b, i) != 0 {
            t = t.meet(i, lead_key(b, ww, sw, i));
        }
    }
    t
}
