// Whether a text is a word, and a text before and behind a separator.
ghost use Rattle.std.specs.Prelude.{◌≡◌, ◌+◌, ◌<◌, ◌==◌, length, take, drop, position, MatchOption};
ghost use Rattle.text.specs.Bytes.{same, index_of};

// Whether the text s is the word w.
// Kept: a function of its own: `==` takes two slices, so that a caller would write `s == &b"lead"[..]`.
pub fn is_word(s: &[u8], w: &[u8]) -> bool
    ensures { result ≡ same w.now s.now }
{
    s == w
}

// The place of the first byte b of s, where there is one.
// Kept: a function of its own. Tried as `position` in `split_once`: the proof of what it answers didn't close there.
fn place_of(s: &[u8], b: u8) -> Option<usize>
    ensures { result ≡ position (λ x. x == b) s.now }
{
    s.iter().position(|x| *x == b)
}

// The part of s before the first byte b and the part behind it, where there is such a byte.
pub fn split_once(s: &[u8], b: u8) -> Option<(&[u8], &[u8])>
    ensures { MatchOption result (index_of b s.now ≡ length s.now) (λ r. (index_of b s.now < length s.now) × (r.0.now ≡ take (index_of b s.now) s.now) × (r.1.now ≡ drop (index_of b s.now + 1) s.now)) }
{
    let i = place_of(s, b)?;
    Some((&s[..i], &s[i + 1..]))
}
