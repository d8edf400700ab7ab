// The check of a block.
ghost use Rattle.std.specs.Prelude.{◌≡◌, ◌+◌, ◌≤◌, length, ◌==◌};
ghost use Rattle.merge_common.specs.Lent.{part};
ghost use Rattle.block.specs.Block.{check_of, number_at};

use crate::CHECK_AT;
use crate::number::get_number;

// The check of the block from place `at` on, over its first 508 bytes.
pub fn check_of(s: &[u8], at: usize) -> u32
    requires { at + 508 ≤ length s.now }
    ensures { result ≡ check_of (part at 508 s.now) }
{
    let mut sum: u32 = 1;
    for i in 0..CHECK_AT / 4 {
        sum = sum.wrapping_add(get_number::<4>(s, at + 4 * i) as u32);
    }
    sum
}

// Whether the block's last 4 bytes are its check.
pub fn check_stands(s: &[u8], at: usize) -> bool
    requires { at + 512 ≤ length s.now }
    ensures { result ≡ ((number_at 4 (at + 508) s.now) == check_of (part at 508 s.now)) }
{
    get_number::<4>(s, at + CHECK_AT) == u64::from(check_of(s, at))
}
