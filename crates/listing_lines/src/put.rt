// Bytes put one after the other into a lent slice, from any place on. What is past its end is left out, and the
// place that comes back is at most its end.
// Kept: a lent slice and the place in it, here and in the other modules: the project has no heap for a `String`.
// As a struct of the two, which was tried, each method's clause has to say too that the slice is the same borrow at
// the end (`self.new.out.ghost_name ≡ self.old.out.ghost_name`), or its maker knows nothing of what was put.
ghost use Rattle.std.specs.Prelude.{◌∷◌, []};
ghost use Rattle.text.specs.Numbers.{decimal};
ghost use Rattle.listing_lines.specs.Put.{Put};

// Puts the byte b at a place.
// Kept: a store of its own. Tried as `put(&[b], out, at)`: each digit of a number took 8 to 18 ns, and 4 to 7 so.
pub fn put_byte(b: u8, out: &mut [u8], at: usize) -> usize
    ensures { Put (b ∷ []) at out.old out.new result }
{
    if at >= out.len() {
        return out.len();
    }
    out[at] = b;
    at + 1
}

// Puts a text from a place on.
pub fn put(text: &[u8], out: &mut [u8], at: usize) -> usize
    ensures { Put text.now at out.old out.new result }
{
    let from = at.min(out.len());
    let n = text.len().min(out.len() - from);
    out[from..from + n].copy_from_slice(&text[..n]);
    from + n
}

// Puts the decimal digits of v from a place on.
// Kept: the digits by hand. Tried with `InlineText` of std: by its contract it may hold the text cut short, so that
// the goal `returns` stays open; and with `write!` into the slice, no clause says when it gives an `Err`.
pub fn put_decimal(v: u64, out: &mut [u8], at: usize) -> usize
    ensures { Put (decimal v) at out.old out.new result }
{
    if v < 10 {
        return put_byte(b'0' + v as u8, out, at);
    }
    let next = put_decimal(v / 10, out, at);
    put_byte(b'0' + (v % 10) as u8, out, next)
}
