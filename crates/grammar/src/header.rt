// The first lines of a script: `prime P`, `order lp|Dp|dp`, `vars N`, and `weights W1 .. Wn` where it is.
ghost use Rattle.std.specs.Prelude.{◌≡◌, MatchOption};
ghost use Rattle.text.specs.Bytes.{parts};
ghost use Rattle.text.specs.Numbers.{found};
ghost use Rattle.std.proofs.Math.Option.{none};
ghost use Rattle.grammar.specs.Reading.{after_word, order_read, with_header};
ghost use Rattle.grammar.specs.Parts.{NoRest, RestRead, HeadRead};

use crate::weights::read_weights;
use monomial::order::Order;
use text::bytes::{is_word, split_once};
use text::number::read_number;

// The prime, the order, the number of variables, the weights, x1's first, and the lines behind.
#[derive(Clone, Copy)]
pub struct Header<'a> {
    pub prime: u32,
    pub order: Order,
    pub vars: u32,
    pub weights: [u32; 6],
    pub lines: &'a [u8],
}

// The number behind a word.
fn number_behind(s: &[u8], word: &[u8]) -> Option<u32>
    ensures { result ≡ found (after_word word.now s.now) }
{
    read_number(s.strip_prefix(word)?)
}

// The order that a line names.
// Kept: no `match` on the three texts, which was tried: its arm `_` leaves a goal for each byte at which a text can
// differ, twelve under names that may change, where each test here leaves one.
fn read_order(s: &[u8]) -> Option<Order>
    ensures { result ≡ found (order_read s.now) }
{
    if is_word(s, b"order lp") {
        return Some(Order::Lex);
    }
    if is_word(s, b"order Dp") {
        return Some(Order::DegLex);
    }
    if is_word(s, b"order dp") {
        return Some(Order::DegRevLex);
    }
    None
}

// Reads the first lines.
pub fn read_header(s: &[u8]) -> Option<Header<'_>>
    ensures { MatchOption result (with_header (parts 10 s.now) ≡ none) (λ h. HeadRead s.now h.prime h.order h.vars h.weights h.lines.now) }
{
    let (first, rest) = split_once(s, b'\n')?;
    let prime = number_behind(first, b"prime ")?;
    let (second, rest) = split_once(rest, b'\n')?;
    let order = read_order(second)?;
    let (third, rest) = split_once(rest, b'\n')?;
    let vars = number_behind(third, b"vars ")?;
    let (weights, lines) = read_rest(rest, vars)?;
    Some(Header {
        prime,
        order,
        vars,
        weights,
        lines,
    })
}

// Reads a line of weights, where one stands first, and answers the lines behind it too. Without it all
// weights are 1.
fn read_rest(s: &[u8], vars: u32) -> Option<([u32; 6], &[u8])>
    ensures { MatchOption result (NoRest vars s.now) (λ r. RestRead vars s.now r.0 r.1.now) }
{
    let Some(behind) = s.strip_prefix(b"weights") else {
        return Some(([1; 6], s));
    };
    let (numbers, lines) = split_once(behind, b'\n')?;
    Some((read_weights(numbers, vars)?, lines))
}
