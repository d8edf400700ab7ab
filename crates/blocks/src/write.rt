// The entry for writing blocks.
ghost use Rattle.std.specs.Prelude.{◌≡◌, ◌*◌, ◌≤◌, length};
ghost use Rattle.std.proofs.lemmas.List.Edits.{sets};
ghost use Rattle.limits.specs.Limits.{most_terms};
ghost use Rattle.refusal.specs.Table.{refusal_in};
ghost use Rattle.polynomial.specs.Settings.{setting_of};
ghost use Rattle.polynomial.specs.Terms.{terms};
ghost use Rattle.block.specs.Block.{block_count, first_blocks};
ghost use Rattle.blocks.specs.Outcome.{WriteOutcome, write_stated, write_outcome, write_refusal};

use block::block::put_block;
use block::{BLOCK_BYTES, BLOCK_TERMS};
use block_form::count::{block_count, here_of};
use limits::{MOST_TERMS, WEIGHTS};
use opening::setting::GivenSetting;
use polynomial::check::check;
use polynomial::setting::Setting;
use polynomial::terms::Terms;
use refusal::{Refusal, Refused};

// How many blocks were written.
#[derive(Clone, Copy, Debug, PartialEq, Eq)]
pub struct Written {
    pub blocks: u64,
}

// The blocks are written; or the polynomial is refused, with nothing changed.
pub type Writing = Result<Written, Refused>;

// Writes the blocks of a polynomial to the first bytes of the slice.
pub fn write_blocks(
    p: u32,
    order: u32,
    n: u32,
    weights: &[u32],
    words: &[u64],
    coefs: &[u32],
    s: &mut [u8],
) -> Writing
    ensures { ◌≡◌ {A = WriteOutcome}
        (record { answer = write_stated result; bytes = s.new })
        (write_outcome (setting_of p order n weights.now) words.now coefs.now s.old) }
{
    let given = GivenSetting {
        p,
        order,
        n,
        weights,
    };
    write_refusal(given, words, coefs, s.len())?;
    let count = block_count(words.len());
    put_blocks(given.setting(), Terms { words, coefs }, count, s);
    Ok(Written {
        blocks: count as u64,
    })
}

// Checks a polynomial with room for so many bytes: 1 to 3, 24, 8, 4 to 6, 11, 10.
fn write_refusal(
    given: GivenSetting,
    words: &[u64],
    coefs: &[u32],
    room: usize,
) -> Result<(), Refusal>
    ensures { refusal_in result ≡ write_refusal (setting_of given.entry.p given.entry.order given.entry.n given.entry.weights.now) words.now coefs.now room }
{
    given.check()?;
    if given.weights.len() != WEIGHTS {
        return Err(Refusal::BadShape);
    }
    if words.len() != coefs.len() {
        return Err(Refusal::BadShape);
    }
    check(given.setting(), Terms { words, coefs })?;
    if MOST_TERMS < words.len() {
        return Err(Refusal::TooManyTerms);
    }
    if room < BLOCK_BYTES * block_count(words.len()) {
        return Err(Refusal::NoOutput);
    }
    Ok(())
}

// Puts all blocks of the polynomial from place 0 on.
fn put_blocks(t: Setting, f: Terms, count: usize, s: &mut [u8])
    requires { (length f.words.now ≤ most_terms) × (count ≡ block_count (length f.words.now)) × (512 * count ≤ length s.old) }
    ensures { s.new ≡ sets s.old 0 (first_blocks count t (terms f.entry.words.now f.entry.coefs.now) count) }
{
    for k in 0..count {
        let from = BLOCK_TERMS * k;
        let to = from + here_of(f.words.len(), k);
        let part = Terms {
            words: &f.words[from..to],
            coefs: &f.coefs[from..to],
        };
        put_block(part, k as u32, count as u32, t, s, BLOCK_BYTES * k);
    }
}
