// A whole block.
ghost use Rattle.std.specs.Prelude.{◌≡◌, ◌+◌, ◌≤◌, length};
ghost use Rattle.std.proofs.lemmas.List.Edits.{sets};
ghost use Rattle.polynomial.specs.Terms.{terms};
ghost use Rattle.block.specs.Block.{block};

use crate::check::check_of;
use crate::filler::clear;
use crate::header::Header;
use crate::number::put_number;
use crate::places::put_places;
use crate::{BLOCK_TERMS, CHECK_AT, HEADER_BYTES, PLACE_BYTES};
use polynomial::setting::Setting;
use polynomial::terms::Terms;

// Puts block `number` of `count`, which holds these terms, from place `at` on.
pub fn put_block(f: Terms, number: u32, count: u32, setting: Setting, s: &mut [u8], at: usize)
    requires { (length f.words.now ≤ 41) × (at + 512 ≤ length s.old) }
    ensures { s.new ≡ sets s.old at (block number count setting (terms f.entry.words.now f.entry.coefs.now)) }
{
    let here = f.words.len();
    let header = Header {
        number,
        count,
        here: here as u32,
        setting,
    };
    header.put(s, at);
    put_places(f, s, at + HEADER_BYTES);
    clear(
        s,
        at + HEADER_BYTES + PLACE_BYTES * here,
        PLACE_BYTES * (BLOCK_TERMS - here),
    );
    let check = check_of(s, at);
    put_number::<4>(s, at + CHECK_AT, u64::from(check));
}
