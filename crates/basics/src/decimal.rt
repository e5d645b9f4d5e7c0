// Numbers in decimal digits of a fixed width.
ghost use Rattle.std.specs.Prelude.{◌≡◌, length};
ghost use Rattle.basics.specs.Decimals.{value_of, digits};

use crate::bytes::{ByteClass, allows};

// The number that at most 19 digits show; none where a byte is no digit or there are more.
pub fn value(part: &[u8]) -> Option<u64>
    ensures { result ≡ value_of part.now }
{
    if part.len() > 19 {
        return None;
    }
    let mut n: u64 = 0;
    for b in part {
        if !allows(ByteClass::Digit, *b) {
            return None;
        }
        n = n * 10 + u64::from(*b - b'0');
    }
    Some(n)
}

// Writes the last digits of the number, as many as there is room for.
pub fn put(out: &mut [u8], n: u64)
    ensures { out.new ≡ digits (length out.old) n }
{
    let mut rest = n;
    // By index: with `iter_mut().rev()` the proof did not close.
    for i in (0..out.len()).rev() {
        out[i] = b'0' + (rest % 10) as u8;
        rest /= 10;
    }
}

// The last W digits of the number.
pub fn last_digits<const W: usize>(n: u64) -> [u8; W]
    ensures { result ≡ digits W n }
{
    let mut out = [b'0'; W];
    put(&mut out, n);
    out
}
