// The entry for reading blocks.
ghost use Rattle.std.specs.Prelude.{◌≡◌};
ghost use Rattle.refusal.specs.Table.{refusal_in};
ghost use Rattle.block_form.specs.Form.{Formed};
ghost use Rattle.blocks.specs.Reading.{content_refusal, read_refusal};
ghost use Rattle.blocks.specs.Outcome.{ReadOutcome, read_stated, read_outcome};

use crate::terms::{check_terms, get_terms};
use block::header::get_setting;
use block::weights::weight_number;
use block_form::count::total_in;
use block_form::form::form_refusal;
use opening::setting::GivenSetting;
use refusal::{Refusal, Refused};

// What was read: the setting, with the weights as one number as a header has them, and how many terms.
// Kept: may not change: the definitions `answer_read` and `read_stated` make and read it with the order and the
// weights as these numbers, and the theorem `demand-2-read-back` states it by them.
#[derive(Clone, Copy, Debug, PartialEq, Eq)]
pub struct Read {
    pub p: u32,
    pub order: u32,
    pub n: u32,
    pub weights: u64,
    pub terms: u64,
}

// The polynomial is read, and its terms are in the lent words and coefficients; or the bytes are
// refused, with nothing changed.
pub type Reading = Result<Read, Refused>;

// Reads the polynomial that the bytes hold, all of which must be its blocks.
pub fn read_blocks(s: &[u8], words: &mut [u64], coefs: &mut [u32]) -> Reading
    ensures { ◌≡◌ {A = ReadOutcome}
        (record { answer = read_stated result; ws = words.new; cs = coefs.new })
        (read_outcome s.now words.old coefs.old) }
{
    read_refusal(s, words.len(), coefs.len())?;
    let total = total_in(s);
    get_terms(s, total, words, coefs);
    let t = get_setting(s, 0);
    Ok(Read {
        p: t.p,
        order: t.order,
        n: t.n,
        weights: u64::from(weight_number(&t.weights)),
        terms: total as u64,
    })
}

// Checks bytes that are lent with so many words and so many coefficients.
fn read_refusal(s: &[u8], words_room: usize, coefs_room: usize) -> Result<(), Refusal>
    ensures { refusal_in result ≡ read_refusal s.now words_room coefs_room }
{
    form_refusal(s, words_room, coefs_room)?;
    content_refusal(s, words_room)
}

// Checks the polynomial in the blocks: 1 to 3, 24, 4 to 6, then 10 where so many words have no room for it.
fn content_refusal(s: &[u8], words_room: usize) -> Result<(), Refusal>
    requires { Formed s.now }
    ensures { refusal_in result ≡ content_refusal s.now words_room }
{
    let t = get_setting(s, 0);
    let given = GivenSetting {
        p: t.p,
        order: t.order,
        n: t.n,
        weights: &t.weights,
    };
    given.check()?;
    let total = total_in(s);
    check_terms(t, s, total)?;
    if words_room < total {
        return Err(Refusal::NoOutput);
    }
    Ok(())
}
