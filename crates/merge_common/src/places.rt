// What lies at a place of a lent slice: one word or two. The generic code asks no more of it than this.
ghost use Rattle.std.specs.Prelude.{◌≡◌, ℕ, ◌+◌, ◌*◌, ◌<◌, eqb, length, get_or, set, refl};
ghost use Prim.Native.Nat.{◌≤◌, compare};
ghost use Rattle.wide_monomial.specs.declared.width.Width.{Width};
ghost use Rattle.wide_monomial.specs.declared.width.Width.TheVariants.{One, Two};
ghost use Rattle.wide_monomial.specs.Wide.{paired};
ghost use Rattle.wide_monomial.specs.Widths.{words_each};
ghost use Rattle.place.specs.Numbers.{keyed, key_numbers, word_numbers, key_by, from_key_by};

use crate::merging::choose;
use monomial::order::Order;
use wide_monomial::keys::{keys, words};
use wide_monomial::pair::Pair;

// A key, or the words of a monomial. As either it stands for one number.
pub trait Key: Copy {
    // how many words it has
    ghost width: { Width };

    // the number that it stands for as a key
    ghost number: { Self → ℕ };

    // the number that it stands for as a monomial's words
    ghost monomial: { Self → ℕ };

    // The words of a place.
    const WORDS: usize;

    ghost WORDS: { ℕ };

    // What lies at place k.
    fn at(ww: &[u64], k: usize) -> Self
        requires { k < length (key_numbers width ww.now) }
        ensures { (number result ≡ get_or (key_numbers width ww.now) k 0) × (monomial result ≡ get_or (word_numbers width ww.now) k 0) };

    // Puts it at place k.
    fn put(self, ww: &mut [u64], k: usize)
        requires { k < length (key_numbers width ww.old) }
        ensures { (key_numbers width ww.new ≡ set (key_numbers width ww.old) k (number self)) × (word_numbers width ww.new ≡ set (word_numbers width ww.old) k (monomial self)) };

    // Two words that compare as two keys do. Both flags of a turn come from this one pair, which is
    // faster than comparing all words twice.
    // Kept: no bound `Ord` instead: a turn needs two flags without a branch, where `cmp` gives one Ordering, and `<`,
    // asked both ways, would compare both words of a Pair twice.
    fn deciding(self, other: Self) -> Pair
        ensures { compare result.first result.second ≡ compare (number self) (number other) };

    // The key of a monomial.
    fn key(self, order: Order) -> Self
        ensures { number result ≡ key_by width order (monomial self) };

    // The monomial that has this key.
    fn word(self, order: Order) -> Self
        ensures { monomial result ≡ from_key_by width order (number self) };

    ghost words_are: { WORDS ≡ words_each width };
}

impl Key for u64 {
    ghost width = { One };

    ghost number = { λ w. w };

    ghost monomial = { λ w. w };

    const WORDS: usize = 1;

    ghost WORDS = { 1 };

    fn at(ww: &[u64], k: usize) -> u64 {
        ww[k]
    }

    fn put(self, ww: &mut [u64], k: usize) {
        ww[k] = self;
    }

    fn deciding(self, other: u64) -> Pair {
        Pair {
            first: self,
            second: other,
        }
    }

    fn key(self, order: Order) -> u64 {
        order.key(self)
    }

    fn word(self, order: Order) -> u64 {
        order.word(self)
    }

    ghost words_are = { refl };
}

// Place k of a slice lies at 2k and 2k + 1.
impl Key for Pair {
    ghost width = { Two };

    ghost number = { λ w. keyed w.first w.second };

    ghost monomial = { λ w. paired w.first w.second };

    const WORDS: usize = 2;

    ghost WORDS = { 2 };

    #[tactic(auto, using(crate::proofs::Turns::place_room))]
    fn at(ww: &[u64], k: usize) -> Pair {
        Pair {
            first: ww[2 * k],
            second: ww[2 * k + 1],
        }
    }

    #[tactic(auto, using(crate::proofs::Turns::place_room))]
    fn put(self, ww: &mut [u64], k: usize) {
        ww[2 * k] = self.first;
        ww[2 * k + 1] = self.second;
    }

    // The second keys where the first are alike, and else the first.
    fn deciding(self, other: Pair) -> Pair {
        let like = self.first == other.first;
        Pair {
            first: choose(like, self.second, self.first),
            second: choose(like, other.second, other.first),
        }
    }

    fn key(self, order: Order) -> Pair {
        keys(order, self)
    }

    fn word(self, order: Order) -> Pair {
        words(order, self)
    }

    ghost words_are = { refl };
}
