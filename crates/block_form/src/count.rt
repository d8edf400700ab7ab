// How many blocks there are, and how many terms in each.
ghost use Rattle.std.specs.Prelude.{◌≡◌, ◌*◌, ◌≤◌, length};
ghost use Rattle.block.specs.Block.{block_count};
ghost use Rattle.block_form.specs.Form.{here_of, whole_blocks, total_in};

use block::number::get_number;
use block::{BLOCK_BYTES, BLOCK_TERMS, MOST_BLOCKS};

// How many blocks so many terms make.
pub fn block_count(terms: usize) -> usize
    ensures { result ≡ block_count terms }
{
    terms.div_ceil(BLOCK_TERMS).max(1)
}

// How many of the terms go into block k.
pub fn here_of(total: usize, k: usize) -> usize
    requires { 41 * k ≤ total }
    ensures { result ≡ here_of total k }
{
    (total - BLOCK_TERMS * k).min(BLOCK_TERMS)
}

// Whether a slice of this length is 1 to 100 whole blocks.
#[tactic(auto, unfolding(crate::specs::Form::whole_blocks))]
pub fn whole_blocks(len: usize) -> bool
    ensures { result ≡ whole_blocks len }
{
    len % BLOCK_BYTES == 0 && (BLOCK_BYTES..=MOST_BLOCKS * BLOCK_BYTES).contains(&len)
}

// The terms in the blocks, by the last one.
pub fn total_in(s: &[u8]) -> usize
    requires { (512 ≤ length s.now) × (length s.now ≤ 51200) }
    ensures { result ≡ total_in s.now }
{
    let last = s.len() / BLOCK_BYTES - 1;
    BLOCK_TERMS * last + get_number::<2>(s, BLOCK_BYTES * last + 4) as usize
}
