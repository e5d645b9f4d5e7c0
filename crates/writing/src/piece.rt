// A part that takes one row.
ghost use Rattle.std.specs.Prelude.{◌≡◌, ◌≤◌, true, length};
ghost use Rattle.layouts.specs.Kinds.{width};
ghost use Rattle.values.specs.Writing.{padded, suits, written};
ghost use Rattle.writing.specs.Pieces.{part_of};

use crate::suits::{fits, has_room};
use basics::bytes::ByteClass;
use basics::decimal;
use lines::rules::{NumberRule, TextRule};
use values::row::ValueRow;
use values::text::text_of;

// An enum, and no closure: contracts name the parts.
#[derive(Clone, Copy)]
pub(crate) enum Piece {
    // So many digits, whose number keeps a rule.
    Figures(u8, NumberRule),
    // So many bytes of a class, which keep a rule.
    Letters(u16, ByteClass, TextRule),
    // One of these four bytes.
    Code(u8, u8, u8, u8),
}

// Writes the text, and blanks behind it.
fn put_text(out: &mut [u8], text: &[u8])
    requires { length text.now ≤ length out.old }
    ensures { out.new ≡ padded (length out.old) text.now }
{
    let n = text.len();
    out[0..n].copy_from_slice(text);
    out[n..].fill(b' ');
}

impl Piece {
    // Whether the row can be written as this part.
    pub(crate) fn suits(self, row: ValueRow, bytes: &[u8]) -> bool
        ensures { result ≡ suits (part_of self) bytes.now row }
    {
        let n = row.number;
        match self {
            Piece::Figures(w, rule) => has_room(w, n) && rule.passes(n),
            Piece::Letters(w, class, rule) => {
                match text_of(bytes, row) {
                    Some(text) => fits(w, class, rule, text),
                    None => false,
                }
            }
            Piece::Code(a, b, c, d) => {
                n == u64::from(a) || n == u64::from(b) || n == u64::from(c) || n == u64::from(d)
            }
        }
    }

    // How many bytes the part has.
    pub(crate) fn width(self) -> usize
        ensures { result ≡ width (part_of self) }
    {
        match self {
            Piece::Figures(w, _) => usize::from(w),
            Piece::Letters(w, _, _) => usize::from(w),
            Piece::Code(_, _, _, _) => 1,
        }
    }

    // Writes a row that suits as this part.
    pub(crate) fn put(self, row: ValueRow, bytes: &[u8], out: &mut [u8])
        requires suits { suits (part_of self) bytes.now row ≡ true }
        requires whole { length out.old ≡ width (part_of self) }
        ensures { out.new ≡ written (part_of self) bytes.now row }
    {
        match self {
            Piece::Figures(_, _) => decimal::put(out, row.number),
            Piece::Letters(_, _, _) => {
                if let Some(text) = text_of(bytes, row) {
                    put_text(out, text);
                }
            }
            Piece::Code(_, _, _, _) => out[0] = row.number as u8,
        }
    }
}
