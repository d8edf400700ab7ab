// The lengths of what is lent.
ghost use Rattle.std.specs.Prelude.{◌≡◌};
ghost use Rattle.conditions.specs.Lengths.{space_good, lent_good, pairs_good};

use limits::{BUCKET_PLACES, MOST_OPERATIONS, WEIGHTS, WORK_PLACES};

// The lengths of the bucket space, the work space and the output, each for words and for coefficients.
#[derive(Clone, Copy)]
pub struct Lengths {
    pub bw: usize,
    pub bc: usize,
    pub ww: usize,
    pub wc: usize,
    pub ow: usize,
    pub oc: usize,
}

impl Lengths {
    // Whether there are six weights, as many words as coefficients, in input and output, and the bucket
    // and work space have their sizes.
    #[tactic(auto, unfolding(crate::specs::Lengths::lent_good))]
    pub fn lent_good(self, weights: usize, words: usize, coefs: usize) -> bool
        ensures { result ≡ lent_good weights words coefs self.bw self.bc self.ww self.wc self.ow self.oc }
    {
        weights == WEIGHTS && words == coefs && self.ow == self.oc && self.space_good()
    }

    // Whether the bucket space has 5,460 places for words and for coefficients, and the work space 8,192.
    #[tactic(auto, unfolding(crate::specs::Lengths::space_good))]
    fn space_good(self) -> bool
        ensures { result ≡ space_good self.bw self.bc self.ww self.wc }
    {
        self.bw == BUCKET_PLACES
            && self.bc == BUCKET_PLACES
            && self.ww == WORK_PLACES
            && self.wc == WORK_PLACES
    }
}

// Whether a list of so many numbers is of whole pairs, and at most 16,777,216 of them.
#[tactic(auto, unfolding(crate::specs::Lengths::pairs_good))]
pub fn pairs_good(len: usize) -> bool
    ensures { result ≡ pairs_good len }
{
    len % 2 == 0 && len / 2 <= MOST_OPERATIONS
}
