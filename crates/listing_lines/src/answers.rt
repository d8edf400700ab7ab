// The lines of a run's leads and sums, from the places that it wrote.
ghost use Rattle.polynomial.specs.Terms.{term, terms};
ghost use Rattle.conditions.specs.Operations.{code_of};
ghost use Rattle.listing_lines.specs.Put.{Put};
ghost use Rattle.listing_lines.specs.Listing.{place_text, lead_text, TermsPut, SumPut, AnswerPut, answers_text};

use crate::put::{put, put_byte};
use crate::term::Variables;
use conditions::operations::Operation;
use polynomial::terms::Terms;

// How many places of those that a run wrote have been read, and the next place of the listing.
#[derive(Clone, Copy)]
pub struct Next {
    pub read: usize,
    pub at: usize,
}

impl Variables {
    // Puts a term behind a space, or ` zero`.
    fn put_place(self, w: u64, coef: u32, out: &mut [u8], at: usize) -> usize
        ensures { Put (place_text self.order self.n (term w coef)) at out.old out.new result }
    {
        if coef == 0 {
            return put(b" zero", out, at);
        }
        self.put_term(w, coef, out, at)
    }

    // Puts the line of a lead: of the first place, or zero where there is none.
    fn put_lead(self, f: Terms, out: &mut [u8], at: usize) -> usize
        ensures { Put (lead_text self.order self.n (terms f.entry.words.now f.entry.coefs.now)) at out.old out.new result }
    {
        let from = put(b"lead", out, at);
        let word = f.words.first().copied().unwrap_or(0);
        let coef = f.coefs.first().copied().unwrap_or(0);
        let end = self.put_place(word, coef, out, from);
        put_byte(b'\n', out, end)
    }

    // Puts the terms up to a zero place.
    fn put_terms(self, f: Terms, out: &mut [u8], at: usize) -> Next
        ensures { TermsPut self.order self.n f.entry.words.now f.entry.coefs.now at out.old out.new result }
    {
        let mut to = at.min(out.len());
        for (read, word) in f.words.iter().enumerate() {
            let c = f.coefs[read];
            if c == 0 {
                return Next { read, at: to };
            }
            to = self.put_term(*word, c, out, to);
        }
        Next {
            read: f.words.len(),
            at: to,
        }
    }

    // Puts the line of a sum.
    fn put_sum(self, f: Terms, out: &mut [u8], at: usize) -> Next
        ensures { SumPut self.order self.n f.entry.words.now f.entry.coefs.now at out.old out.new result }
    {
        let from = put(b"sum", out, at);
        let t = self.put_terms(f, out, from);
        let zero: &[u8] = if t.read == 0 { b" zero" } else { b"" };
        let behind = put(zero, out, t.at);
        let end = put_byte(b'\n', out, behind);
        Next { at: end, ..t }
    }

    // Puts the line of an operation.
    fn put_answer(self, operation: Operation, f: Terms, out: &mut [u8], at: usize) -> Next
        ensures { AnswerPut self.order self.n (code_of operation) f.entry.words.now f.entry.coefs.now at out.old out.new result }
    {
        let left = f.words.len();
        match operation {
            Operation::Add(_) => Next {
                read: 0,
                at: at.min(out.len()),
            },
            Operation::Lead => {
                let end = self.put_lead(f, out, at);
                Next {
                    read: left.min(1),
                    at: end,
                }
            }
            Operation::Sum => {
                let s = self.put_sum(f, out, at);
                Next {
                    read: left.min(s.read + 1),
                    at: s.at,
                }
            }
        }
    }

    // Puts the lines of all operations, from the output places that the run wrote.
    pub fn put_answers(self, ops: &[usize], f: Terms, out: &mut [u8]) -> usize
        ensures { Put (answers_text self.order self.n ops.now (terms f.entry.words.now f.entry.coefs.now)) 0 out.old out.new result }
    {
        let mut words = f.words;
        let mut coefs = f.coefs;
        let mut at = 0;
        let (pairs, _) = ops.as_chunks::<2>();
        for &[code, k] in pairs {
            let left = Terms { words, coefs };
            let next = self.put_answer(Operation::of(code, k), left, out, at);
            words = &words[next.read..];
            coefs = &coefs[next.read..];
            at = next.at;
        }
        at
    }
}
