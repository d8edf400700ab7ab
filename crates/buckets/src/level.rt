// A bucket by its number, with the place of its areas and its capacity.
ghost use Rattle.std.specs.Prelude.{◌≡◌, suc, ◌+◌, ◌-◌, ◌*◌, ◌<◌, ◌≤◌};
ghost use Rattle.limits.specs.Limits.{most_terms};
ghost use Rattle.space.specs.Space.{capacity, start};
ghost use Rattle.buckets.specs.Levels.{LevelFor};

#[derive(Clone, Copy)]
pub struct Level {
    pub bucket: usize,
    pub zone: usize,
    pub cap: usize,
    ghost zone_is: { zone ≡ 4 * start bucket },
    ghost cap_is: { cap ≡ capacity bucket },
}

impl Level {
    // The next bucket.
    pub fn next(self) -> Self
        requires { self.bucket < 6 }
        ensures { result.bucket ≡ suc self.bucket }
    {
        let cap = self.cap;
        Level {
            bucket: self.bucket + 1,
            zone: self.zone + cap * 4,
            cap: cap * 4,
        }
    }

    // The other one of the bucket's two areas.
    pub fn other_area(self, side: usize) -> usize
        requires { (self.bucket < 5) × (self.zone ≤ side) × (side ≤ self.zone + 2 * self.cap) }
        ensures { result ≡ self.zone + (self.zone + 2 * self.cap - side) }
    {
        self.zone + (self.zone + 2 * self.cap - side)
    }
}

// The lowest bucket whose capacity is at least n.
// Kept: `while`: no index is counted, since how many turns are made is what is looked for.
pub fn level_for(n: usize) -> Level
    requires { n ≤ most_terms }
    ensures { LevelFor n result.bucket }
{
    let mut l = Level {
        bucket: 0,
        zone: 0,
        cap: 4,
    };
    while l.cap < n {
        l = l.next();
    }
    l
}
