// Decimal numbers.
ghost use Rattle.std.specs.Prelude.{◌≡◌, ◌-◌, min};
ghost use Rattle.text.specs.Numbers.{only_if, is_digit, with_digit, number_of, found};

// The digit that the byte b is.
fn digit(b: u8) -> Option<u32>
    ensures { result ≡ found (only_if (is_digit b) (b - 48)) }
{
    match b {
        b'0'..=b'9' => Some(u32::from(b - b'0')),
        _ => None,
    }
}

// The number v with the digit of the byte b behind it. There is none where v is 0, so that no number begins with 0.
fn with_digit(v: u32, b: u8) -> Option<u32>
    ensures { result ≡ found (with_digit v b) }
{
    if v == 0 {
        return None;
    }
    let last = digit(b)?;
    v.checked_mul(10)?.checked_add(last)
}

// The number that the text s is: of at most 32 bits, or none.
pub fn read_number(s: &[u8]) -> Option<u32>
    ensures { result ≡ found (number_of s.now) }
{
    let (first, rest) = s.split_first()?;
    let mut v = digit(*first)?;
    for b in rest {
        v = with_digit(v, *b)?;
    }
    Some(v)
}

// The number v as a byte, 255 where it is larger.
pub fn byte_of(v: u32) -> u8
    ensures { result ≡ min v 255 }
{
    v.min(255) as u8
}
