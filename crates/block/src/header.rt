// The header of a block.
ghost use Rattle.std.specs.Prelude.{◌≡◌, ◌+◌, ◌≤◌, length};
ghost use Rattle.std.proofs.lemmas.List.Edits.{sets};
ghost use Rattle.merge_common.specs.Lent.{part};
ghost use Rattle.block.specs.Block.{header, setting_bytes, same, setting_at};

use crate::HEADER_BYTES;
use crate::filler::clear;
use crate::number::{get_number, put_number};
use crate::weights::{weight_number, weights_of};
use polynomial::setting::Setting;

// What a header says: block `number` of `count`, with so many terms here, and the setting.
#[derive(Clone, Copy)]
pub struct Header {
    pub number: u32,
    pub count: u32,
    pub here: u32,
    pub setting: Setting,
}

impl Header {
    // Puts the header from place `at` on.
    pub fn put(self, s: &mut [u8], at: usize)
        requires { at + 16 ≤ length s.old }
        ensures { s.new ≡ sets s.old at (header self.number self.count self.here self.setting) }
    {
        put_number::<2>(s, at, u64::from(self.number));
        put_number::<2>(s, at + 2, u64::from(self.count));
        put_number::<2>(s, at + 4, u64::from(self.here));
        put_setting(s, at + 6, self.setting);
    }

    // Whether the header stands from place `at` on.
    pub fn stands(self, s: &[u8], at: usize) -> bool
        requires { at + 16 ≤ length s.now }
        ensures { result ≡ same (part at 16 s.now) (header self.number self.count self.here self.setting) }
    {
        // Kept: fixed memory, as the project has no heap: a header is sixteen bytes.
        let mut bytes = [0u8; HEADER_BYTES];
        self.put(&mut bytes, 0);
        s[at..at + HEADER_BYTES] == bytes[..]
    }
}

// Puts the setting's ten bytes from place `at` on, which is byte 6 of a header.
pub fn put_setting(s: &mut [u8], at: usize, setting: Setting)
    requires { at + 10 ≤ length s.old }
    ensures { s.new ≡ sets s.old at (setting_bytes setting) }
{
    let weights = setting.weights;
    put_number::<2>(s, at, u64::from(setting.p));
    put_number::<1>(s, at + 2, u64::from(setting.order));
    put_number::<1>(s, at + 3, u64::from(setting.n));
    put_number::<2>(s, at + 4, u64::from(setting.p / 65536));
    put_number::<3>(s, at + 6, u64::from(weight_number(&weights)));
    clear(s, at + 9, 1);
}

// The setting in the header from place `at` on.
pub fn get_setting(s: &[u8], at: usize) -> Setting
    requires { at + 16 ≤ length s.now }
    ensures { result ≡ setting_at at s.now }
{
    let low = get_number::<2>(s, at + 6);
    let upper = get_number::<2>(s, at + 10);
    let p = low + 65536 * upper;
    Setting {
        p: p as u32,
        order: get_number::<1>(s, at + 8) as u32,
        n: get_number::<1>(s, at + 9) as u32,
        weights: weights_of(get_number::<3>(s, at + 12) as u32),
    }
}
