// Writes rows that are known to suit.
ghost use Rattle.std.specs.Prelude.{◌≡◌, ◌*◌, ◌<◌, ◌≤◌, true, length};
ghost use Rattle.layouts.specs.Kinds.{block, record_name, width};
ghost use Rattle.layouts.specs.Layouts.{layout_at};
ghost use Rattle.lines.specs.Rules.{number_test, text_test};
ghost use Rattle.values.specs.Forms.{shape_of};
ghost use Rattle.values.specs.Writing.{row_step, line_steps, field_step, field_steps};
ghost use Rattle.writing.specs.Pieces.{part_of};
ghost use Rattle.writing.specs.Sizes.{is_done, bytes_of, size_of, in_front};

use crate::piece::Piece;
use crate::size::Size;
use basics::bytes::ByteClass;
use basics::decimal;
use layouts::fields::fields_of;
use layouts::set::LayoutSet;
use lines::rules::{NumberRule, TextRule};
use values::form::Form;
use values::row::Values;

// Writes the first row as a part in front of `out`.
fn put_row(piece: Piece, values: &Values<'_>, out: &mut [u8]) -> Size
    requires suits { is_done (row_step (part_of piece) values.now.bytes.now values.now.rows.now) ≡ true }
    requires room { width (part_of piece) ≤ length out.old }
    ensures out { out.new ≡ in_front (bytes_of (row_step (part_of piece) values.now.bytes.now values.now.rows.now)) out.old }
    ensures size { result ≡ size_of (length values.now.rows.now) (row_step (part_of piece) values.now.bytes.now values.now.rows.now) }
{
    let w = piece.width();
    piece.put(values.rows[0], values.bytes, &mut out[0..w]);
    Size { bytes: w, rows: 1 }
}

// Writes the first rows as n lines of a block in front of `out`. By number: of memory written through
// `chunks_exact_mut` the proof does not know afterwards what it holds.
fn put_lines(texts: TextRule, n: usize, values: &Values<'_>, out: &mut [u8])
    requires few { n < 100 }
    requires suits { is_done (line_steps (text_test texts) n values.now.bytes.now values.now.rows.now) ≡ true }
    requires room { 35 * n ≤ length out.old }
    ensures { out.new ≡ in_front (bytes_of (line_steps (text_test texts) n values.now.bytes.now values.now.rows.now)) out.old }
{
    for k in 0..n {
        let at = 35 * k;
        let line = Piece::Letters(35, ByteClass::Text, texts);
        line.put(values.rows[k], values.bytes, &mut out[at..at + 35]);
    }
}

// Writes the first rows as a block in front of `out`.
fn put_block(counts: NumberRule, texts: TextRule, values: &Values<'_>, out: &mut [u8]) -> Size
    requires suits { is_done (field_step (block 0 (number_test counts) (text_test texts)) values.now.bytes.now values.now.rows.now) ≡ true }
    requires room { length (bytes_of (field_step (block 0 (number_test counts) (text_test texts)) values.now.bytes.now values.now.rows.now)) ≤ length out.old }
    ensures out { out.new ≡ in_front (bytes_of (field_step (block 0 (number_test counts) (text_test texts)) values.now.bytes.now values.now.rows.now)) out.old }
    ensures size { result ≡ size_of (length values.now.rows.now) (field_step (block 0 (number_test counts) (text_test texts)) values.now.bytes.now values.now.rows.now) }
{
    let n = values.rows[0].number;
    decimal::put(&mut out[0..2], n);
    let lines = n as usize;
    put_lines(texts, lines, &values.skip(1), &mut out[2..]);
    Size {
        bytes: 2 + 35 * lines,
        rows: 1 + lines,
    }
}

// Writes the name of a record in front of `out`.
fn put_name(digits: u32, out: &mut [u8])
    requires { 8 ≤ length out.old }
    ensures { out.new ≡ in_front (record_name digits) out.old }
{
    out[0..3].copy_from_slice(b"UBT");
    decimal::put(&mut out[3..8], u64::from(digits));
}

// Writes the first rows as a field in front of `out`.
fn put_field(form: Form, values: &Values<'_>, out: &mut [u8]) -> Size
    requires suits { is_done (field_step (shape_of form) values.now.bytes.now values.now.rows.now) ≡ true }
    requires room { length (bytes_of (field_step (shape_of form) values.now.bytes.now values.now.rows.now)) ≤ length out.old }
    ensures out { out.new ≡ in_front (bytes_of (field_step (shape_of form) values.now.bytes.now values.now.rows.now)) out.old }
    ensures size { result ≡ size_of (length values.now.rows.now) (field_step (shape_of form) values.now.bytes.now values.now.rows.now) }
{
    match form {
        Form::Name(d) => {
            put_name(d, out);
            Size { bytes: 8, rows: 0 }
        }
        Form::Fill(b, w) => {
            let end = usize::from(w);
            out[0..end].fill(b);
            Size {
                bytes: end,
                rows: 0,
            }
        }
        Form::Figures(w, rule) => put_row(Piece::Figures(w, rule), values, out),
        Form::Letters(w, class, rule) => put_row(Piece::Letters(w, class, rule), values, out),
        Form::Code(a, b, c, d) => put_row(Piece::Code(a, b, c, d), values, out),
        Form::Block(_, counts, texts) => put_block(counts, texts, values, out),
    }
}

// Writes the rows as the fields of layout j in front of `out`.
pub(crate) fn put_fields<S: LayoutSet>(set: &S, j: usize, values: &Values<'_>, out: &mut [u8])
    requires suits { is_done (field_steps 1 (layout_at (S.meaning set.now) j) values.now.bytes.now values.now.rows.now) ≡ true }
    requires room { length (bytes_of (field_steps 1 (layout_at (S.meaning set.now) j) values.now.bytes.now values.now.rows.now)) ≤ length out.old }
    ensures { out.new ≡ in_front (bytes_of (field_steps 1 (layout_at (S.meaning set.now) j) values.now.bytes.now values.now.rows.now)) out.old }
{
    let mut place = 0;
    let mut used = 0;
    for f in fields_of(set, j) {
        let size = put_field(Form::from(f), &values.skip(used), &mut out[place..]);
        place += size.bytes;
        used += size.rows;
    }
}
