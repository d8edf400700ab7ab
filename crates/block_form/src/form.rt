// Whether bytes have the form of blocks.
ghost use Rattle.std.specs.Prelude.{◌≡◌, ◌≤◌, ◌<◌, length};
ghost use Rattle.refusal.specs.Table.{refusal_in};
ghost use Rattle.block_form.specs.Form.{form_refusal, checks_stand, block_stands, blocks_stand, all_below, count_in, Counted};

use crate::count::{block_count, here_of, total_in, whole_blocks};
use block::check::check_stands;
use block::filler::is_clear;
use block::header::{Header, get_setting};
use block::{BLOCK_BYTES, BLOCK_TERMS, HEADER_BYTES, PLACE_BYTES};
use limits::MOST_TERMS;
use refusal::Refusal;

// Checks the form of the bytes: 8, 14, 15 for all blocks, 16. So many words and so many coefficients are lent.
pub fn form_refusal(s: &[u8], words_room: usize, coefs_room: usize) -> Result<(), Refusal>
    ensures { refusal_in result ≡ form_refusal s.now words_room coefs_room }
{
    if words_room != coefs_room {
        return Err(Refusal::BadShape);
    }
    if !whole_blocks(s.len()) {
        return Err(Refusal::NotBlocks);
    }
    if !checks_stand(s) {
        return Err(Refusal::BadCheck);
    }
    if blocks_stand(s) {
        Ok(())
    } else {
        Err(Refusal::BadBlock)
    }
}

// Whether every block ends with its check.
fn checks_stand(s: &[u8]) -> bool
    ensures { result ≡ checks_stand s.now }
{
    (0..s.len() / BLOCK_BYTES).all(|k| check_stands(s, BLOCK_BYTES * k))
}

// Whether every block has the header and the filler that writing would put there, for at most 4,096
// terms.
fn blocks_stand(s: &[u8]) -> bool
    requires { (512 ≤ length s.now) × (length s.now ≤ 51200) }
    ensures { result ≡ blocks_stand s.now }
{
    let count = s.len() / BLOCK_BYTES;
    let total = total_in(s);
    let blocks = block_count(total);
    blocks == count && total <= MOST_TERMS && each_stands(s, count, total)
}

// Whether each block has its header and filler.
fn each_stands(s: &[u8], count: usize, total: usize) -> bool
    requires { Counted s.now count total }
    ensures { result ≡ all_below (count_in s.now) (block_stands s.now) }
{
    (0..count).all(|k| block_stands(s, k, count, total))
}

// Whether block k has its header and filler.
fn block_stands(s: &[u8], k: usize, count: usize, total: usize) -> bool
    requires { Counted s.now count total × (k < count) }
    ensures { result ≡ block_stands s.now k }
{
    let at = BLOCK_BYTES * k;
    let here = here_of(total, k);
    let header = Header {
        number: k as u32,
        count: count as u32,
        here: here as u32,
        setting: get_setting(s, 0),
    };
    header.stands(s, at)
        && is_clear(
            s,
            at + HEADER_BYTES + PLACE_BYTES * here,
            PLACE_BYTES * (BLOCK_TERMS - here),
        )
}
