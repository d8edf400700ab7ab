// The starts of lent polynomials.
ghost use Rattle.std.specs.Prelude.{◌≡◌};
ghost use Rattle.polynomial.specs.Opening.{starts_good};

// Whether the first start is 0, the last is len, and none falls.
pub fn starts_good(starts: &[usize], len: usize) -> bool
    ensures { result ≡ starts_good starts.now len }
{
    let Some(last) = starts.last() else {
        return false;
    };
    starts[0] == 0 && starts.is_sorted() && *last == len
}
