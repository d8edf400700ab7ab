// The three orders, and the comparison of two words.
ghost use Rattle.std.specs.Prelude.{◌≡◌};
ghost use Rattle.monomial.specs.Exponents.{order_of, order_number};
ghost use Rattle.monomial.specs.Words.{key_of, from_key, compare_words, answer};

use crate::layout::FIELDS;
use std::cmp::Ordering;
use std::fmt;

// The orders by their numbers in document 01: 1 = lp, 2 = Dp, 3 = dp.
#[derive(Clone, Copy, Debug, PartialEq, Eq)]
pub enum Order {
    Lex = 1,
    DegLex = 2,
    DegRevLex = 3,
}

// The orders by their names in document 01.
impl fmt::Display for Order {
    fn fmt<W: fmt::Write>(&self, f: &mut fmt::Formatter<W>) -> fmt::Result {
        f.write_str(match self {
            Order::Lex => "lp",
            Order::DegLex => "Dp",
            Order::DegRevLex => "dp",
        })
    }
}

// The order of a number: 3 for each number but 1 and 2.
// Kept: may not change: it answers for every number, where `TryFrom` would answer a Result: `probe_key`, which C
// calls with any number, promises the key in that order.
pub fn order_of(number: u32) -> Order
    ensures { result ≡ order_of number }
{
    match number {
        1 => Order::Lex,
        2 => Order::DegLex,
        _ => Order::DegRevLex,
    }
}

impl Order {
    // Its number, as document 01 and the C interface have it.
    // Kept: no plainer as `From`: `u32::from(order)` does not say that the number is document 01's.
    pub fn number(self) -> u32
        ensures { result ≡ order_number self }
    {
        self as u32
    }

    // The number by which words are compared, one-to-one on all words: the fields moved to the
    // top for lp, the word itself for Dp, its fields inverted for dp.
    pub fn key(self, w: u64) -> u64
        ensures { result ≡ key_of self w }
    {
        match self {
            Order::Lex => w % 0x1_0000_0000_0000 * 0x1_0000 + w / 0x1_0000_0000_0000,
            Order::DegLex => w,
            Order::DegRevLex => w ^ FIELDS,
        }
    }

    // The word that has the key k.
    pub fn word(self, k: u64) -> u64
        ensures { result ≡ from_key self k }
    {
        match self {
            Order::Lex => k % 0x1_0000 * 0x1_0000_0000_0000 + k / 0x1_0000,
            Order::DegLex => k,
            Order::DegRevLex => k ^ FIELDS,
        }
    }

    // How the monomial x stands to y.
    pub fn compare(self, x: u64, y: u64) -> Ordering
        ensures { result ≡ answer (compare_words self x y) }
    {
        self.key(x).cmp(&self.key(y))
    }
}
