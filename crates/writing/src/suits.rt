// Which numbers and texts a part takes.
ghost use Rattle.std.specs.Prelude.{◌≡◌, ◌^◌, ◌≤◌, replicate, nat_lt};
ghost use Rattle.basics.specs.Bytes.{allowed, all};
ghost use Rattle.lines.specs.Rules.{text_test};
ghost use Rattle.values.specs.Writing.{fitting};

use basics::bytes::{ByteClass, allows, first_forbidden};
use basics::text::trimmed;
use lines::rules::TextRule;

// Whether the number has at most w digits.
pub(crate) fn has_room(w: u8, n: u64) -> bool
    ensures { result ≡ nat_lt n (10 ^ w) }
{
    w > 19 || n < 10u64.pow(u32::from(w))
}

// Whether so many blanks are of a class.
fn takes_blanks(class: ByteClass, n: usize) -> bool
    ensures { result ≡ all (allowed class) (replicate n 32) }
{
    n == 0 || allows(class, b' ')
}

// Whether a text can stand in w bytes of a class, with blanks behind it where it is shorter.
pub(crate) fn fits(w: u16, class: ByteClass, rule: TextRule, text: &[u8]) -> bool
    ensures { result ≡ fitting w (allowed class) (text_test rule) text.now }
{
    if text.len() > usize::from(w) {
        return false;
    }
    if trimmed(text).len() != text.len() {
        return false;
    }
    if first_forbidden(class, text).is_some() {
        return false;
    }
    if !takes_blanks(class, usize::from(w) - text.len()) {
        return false;
    }
    rule.passes(text)
}
