// Classes of bytes, and the first byte of a part that may not stand where it does.
ghost use Rattle.std.specs.Prelude.{◌≡◌};
ghost use Rattle.basics.specs.Bytes.{allowed, all, anywhere, first_forbidden};

// The bytes that one kind of part allows. An enum, and no closure: contracts and definitions name
// the classes.
#[derive(Clone, Copy, Debug, PartialEq, Eq)]
pub enum ByteClass {
    Digit,
    Capital,
    Text,
    Blank,
    Zero,
    OneOf(u8, u8, u8, u8),
}

// Whether the class has the byte.
pub fn allows(class: ByteClass, b: u8) -> bool
    ensures { result ≡ allowed class b }
{
    match class {
        ByteClass::Digit => b'0' <= b && b <= b'9',
        ByteClass::Capital => b'A' <= b && b <= b'Z',
        ByteClass::Text => match b {
            32..=126 | 160..=255 => true,
            _ => false,
        },
        ByteClass::Blank => b == b' ',
        ByteClass::Zero => b == b'0',
        ByteClass::OneOf(p, q, r, s) => b == p || b == q || b == r || b == s,
    }
}

// Whether the class has all of the bytes. No early end: then the compiler compares many bytes at
// once, which is more than ten times as fast.
fn allows_all(class: ByteClass, part: &[u8]) -> bool
    ensures { result ≡ all (allowed class) part.now }
{
    let mut ok = true;
    for b in part {
        ok &= allows(class, *b);
    }
    ok
}

// The index of the first byte that the class has not. By rule a loop over the bytes with their index,
// but most parts have no such byte, and short ones gain nothing by looking at all bytes first.
pub fn first_forbidden(class: ByteClass, part: &[u8]) -> Option<usize>
    ensures { result ≡ first_forbidden (anywhere (allowed class)) 0 part.now }
{
    if part.len() >= 8 && allows_all(class, part) {
        return None;
    }
    for (k, b) in part.iter().enumerate() {
        if !allows(class, *b) {
            return Some(k);
        }
    }
    None
}
