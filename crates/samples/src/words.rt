// Words read back: their exponents, and whether they are of the layout.
ghost use Rattle.std.specs.Prelude.{◌≡◌, ◌≤◌};
ghost use Rattle.monomial.specs.Exponents.{ones};
ghost use Rattle.monomial.specs.Layout.{fields};

use crate::text;
use monomial::exponents::{exponent, weight_word};
use monomial::layout::Layout;
use monomial::order::Order;
use std::io;

// The three orders, in the turn in which each case is tried.
pub const ORDERS: [Order; 3] = [Order::Lex, Order::DegLex, Order::DegRevLex];

// A number of variables and a word, each tried in the three orders. Past the first ones a top bit
// is set, the degree is wrong, or a field beyond the last variable is not 0.
const WORDS: [(usize, u64); 20] = [
    (2, 0x0003_0000_0000_0102),
    (2, 0x0003_0201_0000_0000),
    (1, 0x0000_0000_0000_0000),
    (6, 0x0000_0000_0000_0000),
    (6, 0x02fa_7f7f_7f7f_7f7f),
    (2, 0x0003_0000_0000_0182),
    (2, 0x0083_0000_0000_0182),
    (2, 0x0003_8201_0000_0000),
    (2, 0x0083_8201_0000_0000),
    (2, 0x0004_0000_0000_0102),
    (2, 0x0002_0201_0000_0000),
    (2, 0x8003_0000_0000_0102),
    (2, 0x0004_0000_0001_0102),
    (3, 0x0004_0000_0001_0102),
    (2, 0x0004_0201_0100_0000),
    (3, 0x0004_0201_0100_0000),
    (5, 0x0001_0100_0000_0000),
    (6, 0x02f9_7f7f_7f7f_7f7f),
    (6, 0x8000_0000_0000_0000),
    (6, 0xffff_ffff_ffff_ffff),
];

pub fn given(rt: &impl Print) -> io::Result<()> {
    for (n, w) in WORDS {
        in_orders(rt, n, w)?;
    }
    Ok(())
}

// The word w in n variables, in the three orders.
fn in_orders(rt: &impl Print, n: usize, w: u64) -> io::Result<()> {
    if n > 6 {
        return Ok(());
    }
    for order in ORDERS {
        text::order(rt, order)?;
        print!(rt; "n = {n}")?;
        reading(rt, order, n, w)?;
    }
    Ok(())
}

// The word, its exponents, and whether it is of the layout.
pub fn reading(rt: &impl Print, order: Order, n: usize, w: u64) -> io::Result<()>
    requires { n ≤ 6 }
{
    print!(rt; " word {w:016x} exponents ")?;
    for i in 0..n {
        text::dotted(rt, i, exponent(order, w, i as u32))?;
    }
    let is_of = Layout::new(order, n as u32, &[1; 6]).holds(w);
    let not = if is_of { "" } else { "not " };
    println!(rt; " {not}of the layout")
}

// Six weights of 1, as a word.
pub fn unit_weights(order: Order) -> u64
    ensures { fields order result ≡ ones }
{
    let weights = [1; 6];
    weight_word(order, &weights)
}
