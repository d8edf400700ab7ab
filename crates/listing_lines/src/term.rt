// A term of the listing, as the script writes it.
ghost use Rattle.std.specs.Prelude.{◌<◌, get_or};
ghost use Rattle.monomial.specs.Layout.{fields};
ghost use Rattle.polynomial.specs.Terms.{term};
ghost use Rattle.listing_lines.specs.Put.{Put};
ghost use Rattle.listing_lines.specs.Listing.{dotted, exponents_text, term_text};

use crate::put::{put_byte, put_decimal};
use monomial::exponents::exponent;
use monomial::order::Order;

// What a term's text follows: the number of variables, and the order, which lays their exponents out in a word.
#[derive(Clone, Copy)]
pub struct Variables {
    pub order: Order,
    pub n: u32,
}

// Puts the exponent of variable i, from 0, behind a dot unless it is the first.
fn put_exponent(order: Order, w: u64, i: u32, out: &mut [u8], at: usize) -> usize
    requires { i < 6 }
    ensures { Put (dotted i (get_or (fields order w) i 0)) at out.old out.new result }
{
    let e = exponent(order, w, i);
    if i == 0 {
        return put_decimal(u64::from(e), out, at);
    }
    let next = put_byte(b'.', out, at);
    put_decimal(u64::from(e), out, next)
}

impl Variables {
    // Puts the exponents of a word, parted by dots.
    pub fn put_exponents(self, w: u64, out: &mut [u8], at: usize) -> usize
        ensures { Put (exponents_text self.order self.n w) at out.old out.new result }
    {
        let mut to = at.min(out.len());
        for i in 0..self.n.min(6) {
            to = put_exponent(self.order, w, i, out, to);
        }
        to
    }

    // Puts a term behind a space.
    pub fn put_term(self, w: u64, c: u32, out: &mut [u8], at: usize) -> usize
        ensures { Put (term_text self.order self.n (term w c)) at out.old out.new result }
    {
        let from = put_byte(b' ', out, at);
        let colon = put_decimal(u64::from(c), out, from);
        let exps = put_byte(b':', out, colon);
        self.put_exponents(w, out, exps)
    }
}
