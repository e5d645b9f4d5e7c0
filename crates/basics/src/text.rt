// Texts with blanks behind them, and text bytes shown to a reader.
ghost use Rattle.std.specs.Prelude.{◌≡◌, Some};
ghost use Rattle.basics.specs.Texts.{trim, as_characters};

use std::fmt;

// The text without its trailing blanks.
#[tactic(auto, using(crate::proofs::TextLaws::trim_blank, crate::proofs::TextLaws::trim_last))]
pub fn trimmed(text: &[u8]) -> &[u8]
    ensures { result.now ≡ trim text.now }
{
    // Byte by byte: std's trimming of bytes takes more than blanks.
    let mut rest = text;
    while let Some((last, front)) = rest.split_last() {
        if *last != b' ' {
            break;
        }
        rest = front;
    }
    rest
}

// Text bytes, printed as characters: each byte is the character of its number.
#[derive(Clone, Copy)]
pub struct Shown<'a>(pub &'a [u8]);

impl fmt::Display for Shown<'_> {
    ghost output = { λ s. Some (as_characters s.0.now) };

    fn fmt<W: fmt::Write>(&self, f: &mut fmt::Formatter<W>) -> fmt::Result {
        for b in self.0 {
            f.write_char(char::from(*b))?;
        }
        Ok(())
    }
}
