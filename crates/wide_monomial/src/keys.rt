// The keys of two words, and the words of two keys: keys are compared as numbers, the first before the second.
ghost use Rattle.std.specs.Prelude.{◌≡◌, ◌+◌, ◌*◌, ◌^◌};
ghost use Rattle.wide_monomial.specs.Wide.{paired};
ghost use Rattle.wide_monomial.specs.WideKeys.{wide_key_of, from_wide_key};

use crate::pair::Pair;
use monomial::order::Order;

// The two keys of a monomial: for lp the fields of the first word, the second word, the degree; for Dp
// the words; for dp the degree, and inverted the second word and the fields of the first.
pub fn keys(order: Order, w: Pair) -> Pair
    ensures { result.first * 2 ^ 64 + result.second ≡ wide_key_of order (paired w.first w.second) }
{
    let Pair { first, second } = w;
    match order {
        Order::Lex => {
            let upper = first % 0x1_0000_0000_0000 * 0x1_0000 + second / 0x1_0000_0000_0000;
            let lower = second % 0x1_0000_0000_0000 * 0x1_0000 + first / 0x1_0000_0000_0000;
            Pair {
                first: upper,
                second: lower,
            }
        }
        Order::DegLex => Pair { first, second },
        Order::DegRevLex => {
            let turned = 0xffff_ffff_ffff_ffff - second;
            let degree = first / 0x1_0000_0000_0000 * 0x1_0000_0000_0000;
            let fields = 0xffff_ffff_ffff - first % 0x1_0000_0000_0000;
            let upper = degree + turned / 0x1_0000;
            let lower = turned % 0x1_0000 * 0x1_0000_0000_0000 + fields;
            Pair {
                first: upper,
                second: lower,
            }
        }
    }
}

// The two words of the monomial that has these keys.
pub fn words(order: Order, k: Pair) -> Pair
    ensures { paired result.first result.second ≡ from_wide_key order (k.first * 2 ^ 64 + k.second) }
{
    let Pair { first, second } = k;
    match order {
        Order::Lex => {
            let upper = second % 0x1_0000 * 0x1_0000_0000_0000 + first / 0x1_0000;
            let lower = first % 0x1_0000 * 0x1_0000_0000_0000 + second / 0x1_0000;
            Pair {
                first: upper,
                second: lower,
            }
        }
        Order::DegLex => Pair { first, second },
        Order::DegRevLex => {
            let degree = first / 0x1_0000_0000_0000 * 0x1_0000_0000_0000;
            let fields = 0xffff_ffff_ffff - second % 0x1_0000_0000_0000;
            let upper = degree + fields;
            let turned = first % 0x1_0000_0000_0000 * 0x1_0000 + second / 0x1_0000_0000_0000;
            Pair {
                first: upper,
                second: 0xffff_ffff_ffff_ffff - turned,
            }
        }
    }
}
