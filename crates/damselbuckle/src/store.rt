// The block store.
ghost use Rattle.std.specs.Prelude.{◌≡◌};
ghost use Rattle.polynomial.specs.Settings.{setting_of};
ghost use Rattle.blocks.specs.Outcome.{WriteOutcome, write_outcome, ReadOutcome, read_outcome};
ghost use Rattle.answers.specs.Store.{write_answered, read_answered};

use answers::store::{ReadAnswer, WriteAnswer};
use blocks::read::read_blocks;
use blocks::write::write_blocks;

// The entry `blocks::write_blocks`.
#[unsafe(no_mangle)]
pub extern "C" fn damselbuckle_write_blocks(
    p: u32,
    order: u32,
    n: u32,
    weights: &[u32],
    words: &[u64],
    coefs: &[u32],
    bytes: &mut [u8],
) -> WriteAnswer
    ensures { ◌≡◌ {A = WriteOutcome}
        (record { answer = write_answered result; bytes = bytes.new })
        (write_outcome (setting_of p order n weights.now) words.now coefs.now bytes.old) }
{
    let answer = write_blocks(p, order, n, weights, words, coefs, bytes);
    WriteAnswer::from(answer)
}

// The entry `blocks::read_blocks`.
#[unsafe(no_mangle)]
pub extern "C" fn damselbuckle_read_blocks(
    bytes: &[u8],
    words: &mut [u64],
    coefs: &mut [u32],
) -> ReadAnswer
    ensures { ◌≡◌ {A = ReadOutcome}
        (record { answer = read_answered result; ws = words.new; cs = coefs.new })
        (read_outcome bytes.now words.old coefs.old) }
{
    let answer = read_blocks(bytes, words, coefs);
    ReadAnswer::from(answer)
}
