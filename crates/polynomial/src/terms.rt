// The terms of a polynomial, or of a part of one, as they are lent.
ghost use Rattle.std.specs.Prelude.{◌≡◌, length};

// A word and a coefficient for each term.
#[derive(Clone, Copy)]
pub struct Terms<'a> {
    pub words: &'a [u64],
    pub coefs: &'a [u32],
    pub ghost same_long: { length coefs.now ≡ length words.now },
}
