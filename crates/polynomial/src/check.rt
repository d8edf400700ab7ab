// The opening check of one polynomial, whole or part by part.
ghost use Rattle.std.specs.Prelude.{◌≡◌};
ghost use Rattle.refusal.specs.Table.{refusal_in};
ghost use Rattle.monomial.specs.Words.{compare_words};
ghost use Rattle.polynomial.specs.Settings.{Testable};
ghost use Rattle.polynomial.specs.Terms.{term, terms};
ghost use Rattle.polynomial.specs.Opening.{polynomial_refusal};
ghost use Rattle.polynomial.specs.Checking.{unseen, verdict, carried_by, late_after, polynomial_on, JudgesTerm};

use crate::setting::Setting;
use crate::terms::Terms;
use monomial::layout::Layout;
use monomial::order::{Order, order_of};
use refusal::{Refusal, refusal_of};

// What the check carries from one part of a polynomial to the next, by document 01's numbers: the
// first 4 or 5, or 0; 6 where the terms so far do not fall, or else 0; whether a term has come, since
// the word 0 is a monomial; and the last word. After a 4 or 5 no term is looked at, and nothing changes.
// Kept: may not change: `check_on` goes on from any four numbers, which C gives `probe_check_on`.
#[repr(C)]
#[derive(Clone, Copy)]
pub struct Checking {
    pub stop: u32,
    pub late: u32,
    pub seen: bool,
    pub last: u64,
}

impl Checking {
    // No term has come.
    pub fn unseen() -> Self
        ensures { carried_by result ≡ unseen 0 }
    {
        Checking {
            stop: 0,
            late: 0,
            seen: false,
            last: 0,
        }
    }

    // The number of the refusal of the terms so far, 0 for none.
    pub fn verdict(self) -> u32
        ensures { result ≡ verdict (carried_by self) }
    {
        if self.stop != 0 { self.stop } else { self.late }
    }
}

// The refusal of a polynomial in a setting: the first place with 4 or 5, and else 6 where the terms do
// not fall. One pass over the terms.
// Kept: `Testable t` as a clause, here and below: it is no fact of every Setting, as one is read from a block before
// it is tested, and a type of tested ones would be opened at once for p, order, n and weights.
// Kept: the number of `check_on` is made a refusal here: it may be any that C hands in, which no Result can hold.
pub fn check(t: Setting, f: Terms) -> Result<(), Refusal>
    requires { Testable t }
    ensures { refusal_in result ≡ polynomial_refusal t (terms f.entry.words.now f.entry.coefs.now) }
{
    let number = check_on(t, f, Checking::unseen()).verdict();
    if number == 0 {
        Ok(())
    } else {
        Err(refusal_of(number))
    }
}

// The check carried on over a further part of a polynomial. The loop keeps plain numbers, since a
// struct made for each term is slower; so is judging a term before it is compared.
// Kept: the index. Tried as `f.words.iter().zip(f.coefs)`: 5.8 to 6.5 ns for a term, where this takes 5.2 to 5.5.
pub fn check_on(t: Setting, f: Terms, from: Checking) -> Checking
    requires { Testable t }
    ensures { carried_by result ≡ polynomial_on t (carried_by from) (terms f.entry.words.now f.entry.coefs.now) }
{
    if from.stop != 0 {
        return from;
    }
    let order = order_of(t.order);
    let layout = Layout::new(order, t.n, &t.weights);
    let mut late = from.late;
    let mut seen = from.seen;
    let mut last = from.last;
    for i in 0..f.words.len() {
        let word = f.words[i];
        late = check_fall(order, seen, last, word, late);
        seen = true;
        last = word;
        if let Err(refusal) = check_term(layout, t.p, word, f.coefs[i]) {
            let stop = refusal.number();
            return Checking {
                stop,
                late,
                seen,
                last,
            };
        }
    }
    Checking {
        stop: 0,
        late,
        seen,
        last,
    }
}

// Checks one term, its coefficient before its word.
pub fn check_term(layout: Layout, p: u32, word: u64, coef: u32) -> Result<(), Refusal>
    ensures { JudgesTerm layout.beyond layout.weights p (term word coef) (refusal_in result) }
{
    if coef == 0 || p <= coef {
        return Err(Refusal::BadCoefficient);
    }
    if !layout.holds(word) {
        return Err(Refusal::BadLayout);
    }
    Ok(())
}

// 6 where a word came before that is not larger, and else what came so far.
// Kept: may not change: `late_after` is stated for `seen` and `last` apart and for any number in `late`, as
// C hands them to `check_on`.
pub fn check_fall(order: Order, seen: bool, last: u64, word: u64, late: u32) -> u32
    ensures { result ≡ late_after (compare_words order) seen last word late }
{
    if !seen || order.key(word) < order.key(last) {
        late
    } else {
        6
    }
}
