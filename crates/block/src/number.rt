// "Numbers are little-endian": a number of N bytes in a slice of bytes.
ghost use Rattle.std.specs.Prelude.{◌≡◌, ◌+◌, ◌^◌, ◌<◌, ◌≤◌, length};
ghost use Rattle.std.proofs.lemmas.List.Edits.{sets};
ghost use Rattle.monomial.specs.Layout.{bytes};
ghost use Rattle.block.specs.Block.{number_at};

// Puts the number's lowest N bytes from place `at` on.
pub fn put_number<const N: usize>(s: &mut [u8], at: usize, x: u64)
    requires { (N ≤ 8) × (at + N ≤ length s.old) }
    ensures { s.new ≡ sets s.old at (bytes N x) }
{
    s[at..at + N].copy_from_slice(&x.to_le_bytes()[..N]);
}

// The number of the N bytes from place `at` on.
pub fn get_number<const N: usize>(s: &[u8], at: usize) -> u64
    requires { (N ≤ 8) × (at + N ≤ length s.now) }
    ensures { (result ≡ number_at N at s.now) × (result < 256 ^ N) }
{
    // Kept: fixed memory, as the project has no heap: `from_le_bytes` takes eight bytes.
    let mut bytes = [0; 8];
    bytes[..N].copy_from_slice(&s[at..at + N]);
    u64::from_le_bytes(bytes)
}
