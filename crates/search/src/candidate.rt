// What a search keeps on its way through the buckets, and what it comes to.
ghost use Rattle.std.specs.Prelude.{◌≡◌, ◌<◌, ◌≤◌};
ghost use Rattle.residue.specs.Modular.{Modulus};
ghost use Rattle.search.specs.Candidates.{joined, passed_by, replaced_by, said_in};

use monomial::order::Order;
use residue::arithmetic::add;

// The lead of the buckets: its bucket, its monomial as a word, and its coefficient with those of the like leads.
#[derive(Clone, Copy)]
pub struct Lead {
    pub bucket: usize,
    pub word: u64,
    pub coef: u32,
}

// What a search comes to: the comparisons made, and the lead, or none where all buckets are empty.
#[derive(Clone, Copy)]
pub struct LeadSearch {
    pub count: u64,
    pub lead: Option<Lead>,
}

// The largest lead so far: its bucket, the comparisons made, its monomial as a key, and its coefficient with those
// of the like leads.
#[derive(Clone, Copy)]
pub struct Candidate {
    pub bucket: usize,
    pub count: u64,
    pub key: u64,
    pub coef: u32,
}

impl Candidate {
    // A smaller lead is passed by.
    // Kept: `self.count ≤ 1000000`, here and in the two below, not a ghost field of Candidate: each of them adds
    // one, so the Candidate that it gives may be one past what it takes.
    pub fn pass_by(mut self) -> Self
        requires { self.count ≤ 1000000 }
        ensures { result ≡ passed_by self }
    {
        self.count += 1;
        self
    }

    // The coefficient of a like lead is added.
    pub fn join(mut self, coef: u32, p: u32) -> Self
        requires { Modulus p × (self.coef < p) × (coef < p) × (self.count ≤ 1000000) }
        ensures { result ≡ joined self coef p }
    {
        self.count += 1;
        self.coef = add(self.coef, coef, p);
        self
    }

    // A larger lead replaces it.
    pub fn replace(self, bucket: usize, key: u64, coef: u32) -> Self
        requires { self.count ≤ 1000000 }
        ensures { result ≡ replaced_by self bucket key coef }
    {
        Candidate {
            bucket,
            count: self.count + 1,
            key,
            coef,
        }
    }

    // The search is done: the candidate is the lead, and its key becomes a word.
    pub fn in_words(self, order: Order) -> LeadSearch
        ensures { result ≡ said_in order self }
    {
        let lead = Lead {
            bucket: self.bucket,
            word: order.word(self.key),
            coef: self.coef,
        };
        LeadSearch {
            count: self.count,
            lead: Some(lead),
        }
    }
}
