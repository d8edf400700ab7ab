// The divisor that a lead is divided by.
ghost use Rattle.std.specs.Prelude.{◌≡◌, ◌+◌, ◌-◌, ◌<◌, ◌≤◌, length, slice_index, MatchOption};
ghost use Rattle.monomial.specs.Words.{Packed};
ghost use Rattle.divisors.specs.Divisors.{lead_word, Leads, FirstFit, FirstOf, KeptLeads, KeptCount, Scannable};

use crate::kept::KEPT;
use monomial::word::divides;
use polynomial::part::Polynomials;

// Puts the lead monomials of the first 1,024 divisors into `leads`.
// Kept: the index. Tried as `leads.iter_mut().zip(..)`: no invariant of such a loop can name what is in `leads`, and
// the goal `returns` stays open.
// Kept: `Leads` in three clauses, here and below. As a ghost field of a struct around `ps` it is proved at the same
// two calls of the reducer, and every clause here names `ps` through one field more.
pub fn keep_leads(ps: Polynomials, leads: &mut [u64; KEPT])
    requires { Leads ps.words.now ps.starts.now }
    ensures { KeptLeads ps.entry.words.now ps.entry.starts.now leads.new }
{
    let n = count_kept(ps.starts);
    for i in 0..n {
        leads[i] = ps.words[ps.starts[i + 1]];
    }
}

// The first polynomial from 1 on whose lead monomial divides `word`. Most are found among the leads that
// are kept, which lie side by side.
pub fn first_fit(ps: Polynomials, leads: &[u64; KEPT], word: u64) -> Option<usize>
    requires { Leads ps.words.now ps.starts.now × KeptLeads ps.words.now ps.starts.now leads.now × Packed word }
    ensures { MatchOption result (FirstFit ps.entry.words.now ps.entry.starts.now word (length ps.entry.starts.now - 1)) (λ k. FirstFit ps.entry.words.now ps.entry.starts.now word k × (k + 1 < length ps.entry.starts.now)) }
{
    let n = count_kept(ps.starts);
    if let Some(i) = first_kept(&leads[..n], word) {
        return Some(i + 1);
    }
    first_past(ps, n + 1, word)
}

// How many divisors have their leads kept.
fn count_kept(starts: &[usize]) -> usize
    requires { 1 < length starts.now }
    ensures { KeptCount (length starts.now) result }
{
    (starts.len() - 2).min(KEPT)
}

// The first lead that divides `word`.
fn first_kept(leads: &[u64], word: u64) -> Option<usize>
    requires { Scannable leads.now word }
    ensures { MatchOption result (FirstOf (slice_index leads.now) word 0 (length leads.now) (length leads.now)) (λ k. FirstOf (slice_index leads.now) word 0 (length leads.now) k × (k < length leads.now)) }
{
    leads.iter().position(|lead| divides(*lead, word))
}

// The first polynomial from `from` on whose lead monomial divides `word`.
fn first_past(ps: Polynomials, from: usize, word: u64) -> Option<usize>
    requires { Leads ps.words.now ps.starts.now × Packed word × (1 ≤ from) × (from + 1 ≤ length ps.starts.now) }
    ensures { MatchOption result (FirstOf (lead_word ps.entry.words.now ps.entry.starts.now) word from (length ps.entry.starts.now - 1) (length ps.entry.starts.now - 1)) (λ k. FirstOf (lead_word ps.entry.words.now ps.entry.starts.now) word from (length ps.entry.starts.now - 1) k × (k + 1 < length ps.entry.starts.now)) }
{
    (from..ps.count()).find(|k| divides(ps.words[ps.starts[*k]], word))
}
