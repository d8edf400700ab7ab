// Filler: runs of 0.
ghost use Rattle.std.specs.Prelude.{◌≡◌, ◌+◌, ◌≤◌, length, replicate};
ghost use Rattle.std.proofs.lemmas.List.Edits.{sets};
ghost use Rattle.merge_common.specs.Lent.{part};
ghost use Rattle.block.specs.Block.{zeros};

// Sets the n bytes from place `at` on to 0.
pub fn clear(s: &mut [u8], at: usize, n: usize)
    requires { at + n ≤ length s.old }
    ensures { s.new ≡ sets s.old at (replicate n 0) }
{
    s[at..at + n].fill(0);
}

// Whether the n bytes from place `at` on are 0.
pub fn is_clear(s: &[u8], at: usize, n: usize) -> bool
    requires { at + n ≤ length s.now }
    ensures { result ≡ zeros (part at n s.now) }
{
    s[at..at + n].iter().all(|b| *b == 0)
}
