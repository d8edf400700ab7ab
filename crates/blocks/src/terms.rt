// The terms in blocks: where they lie, their opening check, and their copies.
ghost use Rattle.std.specs.Prelude.{◌≡◌, ◌+◌, ◌*◌, ◌≤◌, length};
ghost use Rattle.std.proofs.lemmas.List.Edits.{sets};
ghost use Rattle.refusal.specs.Table.{refusal_in};
ghost use Rattle.polynomial.specs.Settings.{Testable};
ghost use Rattle.polynomial.specs.Terms.{words, coefs};
ghost use Rattle.polynomial.specs.Opening.{polynomial_refusal};
ghost use Rattle.polynomial.specs.Checking.{carried_by, polynomial_on};
ghost use Rattle.block_form.specs.Form.{Lying};
ghost use Rattle.blocks.specs.Reading.{first_terms, terms_from};

use block::number::get_number;
use block::{BLOCK_BYTES, BLOCK_TERMS, HEADER_BYTES, PLACE_BYTES};
use block_form::count::here_of;
use monomial::layout::Layout;
use monomial::order::order_of;
use polynomial::check::{Checking, check_fall, check_term};
use polynomial::setting::Setting;
use refusal::{Refusal, refusal_of};

// Checks the terms as a polynomial in a setting: the first place with 4 or 5, and else 6 where they do
// not fall. One pass over the places, block by block.
// Kept: `Testable t` is asked, and no type has it: a `Setting` is also what a header says before it is tested.
pub fn check_terms(t: Setting, s: &[u8], total: usize) -> Result<(), Refusal>
    requires { Testable t × Lying s.now total }
    ensures { refusal_in result ≡ polynomial_refusal t (first_terms s.now total) }
{
    let mut checking = Checking::unseen();
    for k in 0..total.div_ceil(BLOCK_TERMS) {
        checking = check_places(
            t,
            s,
            BLOCK_BYTES * k + HEADER_BYTES,
            here_of(total, k),
            checking,
        );
        if checking.stop != 0 {
            return Err(refusal_of(checking.stop));
        }
    }
    if checking.late == 0 {
        Ok(())
    } else {
        Err(Refusal::NotFalling)
    }
}

// The check carried on over the terms of n places, from byte `at` on.
// Kept: the same as `check_on` of `polynomial` but for where a term is read. Tried with the places of a block copied
// into two arrays that are lent to `check_on`: in plain Rust 6.4 ns a term, and 5.5 by this loop.
// Reading would take as long again as before it went block by block.
fn check_places(t: Setting, s: &[u8], at: usize, n: usize, from: Checking) -> Checking
    requires { Testable t × (at + 12 * n ≤ length s.now) }
    ensures { carried_by result ≡ polynomial_on t (carried_by from) (terms_from s.now at n) }
{
    if from.stop != 0 {
        return from;
    }
    let order = order_of(t.order);
    let layout = Layout::new(order, t.n, &t.weights);
    let mut late = from.late;
    let mut seen = from.seen;
    let mut last = from.last;
    for j in 0..n {
        let word = get_number::<8>(s, at + PLACE_BYTES * j);
        late = check_fall(order, seen, last, word, late);
        seen = true;
        last = word;
        let coef = get_number::<4>(s, at + PLACE_BYTES * j + 8) as u32;
        if let Err(refusal) = check_term(layout, t.p, word, coef) {
            let stop = refusal.number();
            return Checking {
                stop,
                late,
                seen,
                last,
            };
        }
    }
    Checking {
        stop: 0,
        late,
        seen,
        last,
    }
}

// Puts the terms into the lent words and coefficients.
pub fn get_terms(s: &[u8], total: usize, ow: &mut [u64], oc: &mut [u32])
    requires { Lying s.now total × (total ≤ length ow.old) × (length ow.old ≡ length oc.old) }
    ensures { (ow.new ≡ sets ow.old 0 (words (first_terms s.now total))) × (oc.new ≡ sets oc.old 0 (coefs (first_terms s.now total))) }
{
    for k in 0..total.div_ceil(BLOCK_TERMS) {
        let from = BLOCK_TERMS * k;
        let to = from + here_of(total, k);
        get_places(
            s,
            BLOCK_BYTES * k + HEADER_BYTES,
            &mut ow[from..to],
            &mut oc[from..to],
        );
    }
}

// Fills the words and coefficients with the terms of as many places, from byte `at` on.
fn get_places(s: &[u8], at: usize, ow: &mut [u64], oc: &mut [u32])
    requires { (length oc.old ≡ length ow.old) × (at + 12 * length ow.old ≤ length s.now) }
    ensures { (ow.new ≡ words (terms_from s.now at (length ow.old))) × (oc.new ≡ coefs (terms_from s.now at (length ow.old))) }
{
    for j in 0..ow.len() {
        ow[j] = get_number::<8>(s, at + PLACE_BYTES * j);
        oc[j] = get_number::<4>(s, at + PLACE_BYTES * j + 8) as u32;
    }
}
