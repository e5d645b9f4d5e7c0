// Whether rows can be written as a line, and its size. The rows are gone over twice, here and in `put`:
// a refusal has to leave the memory as it was.
ghost use Rattle.std.specs.Prelude.{◌≡◌, ℕ, ◌<◌, ◌≤◌, length, IfOk};
ghost use Rattle.lines.specs.Rules.{number_test, text_test};
ghost use Rattle.layouts.specs.Kinds.{block};
ghost use Rattle.layouts.specs.Layouts.{layout_at};
ghost use Rattle.values.specs.Forms.{shape_of};
ghost use Rattle.values.specs.Writing.{row_step, line_steps, field_step, placed, field_steps};
ghost use Rattle.writing.specs.Pieces.{part_of};
ghost use Rattle.writing.specs.Sizes.{sized};

use crate::piece::Piece;
use crate::size::Size;
use basics::bytes::ByteClass;
use basics::refusal::{Layer, Reason, Refusal};
use layouts::fields::fields_of;
use layouts::set::LayoutSet;
use lines::rules::{NumberRule, TextRule};
use values::form::Form;
use values::row::Values;

// Whether the first row can be written as a part.
fn check_row(piece: Piece, field: usize, values: &Values<'_>) -> Result<Size, Refusal>
    ensures { result ≡ sized (length values.now.rows.now) (placed field (row_step (part_of piece) values.now.bytes.now values.now.rows.now)) }
{
    let Some(row) = values.rows.first() else {
        return Err(Refusal::new(Reason::RowsRunOut, Layer::Lines).in_field(field));
    };
    if !piece.suits(*row, values.bytes) {
        return Err(Refusal::new(Reason::ValueBreaksItsField, Layer::Lines).in_field(field));
    }
    Ok(Size {
        bytes: piece.width(),
        rows: 1,
    })
}

// Whether the first rows can be written as n lines of a block. By number: the rows may run out before
// n, so a loop over them would need a second check behind it.
fn check_lines(
    texts: TextRule,
    n: usize,
    field: usize,
    values: &Values<'_>,
) -> Result<Size, Refusal>
    requires { n < 100 }
    ensures { result ≡ sized (length values.now.rows.now) (placed field (line_steps (text_test texts) n values.now.bytes.now values.now.rows.now)) }
{
    for k in 0..n {
        let line = Piece::Letters(35, ByteClass::Text, texts);
        check_row(line, field, &values.skip(k))?;
    }
    Ok(Size {
        bytes: 35 * n,
        rows: n,
    })
}

// Whether the first rows can be written as a block.
fn check_block(
    counts: NumberRule,
    texts: TextRule,
    field: usize,
    values: &Values<'_>,
) -> Result<Size, Refusal>
    ensures small { IfOk result (λ z. z.bytes ≤ 65535) }
    ensures size { (high : ℕ) → result ≡ sized (length values.now.rows.now) (placed field (field_step (block high (number_test counts) (text_test texts)) values.now.bytes.now values.now.rows.now)) }
{
    check_row(Piece::Figures(2, counts), field, values)?;
    let n = values.rows[0].number as usize;
    let lines = check_lines(texts, n, field, &values.skip(1))?;
    Ok(Size {
        bytes: 2 + lines.bytes,
        rows: 1 + lines.rows,
    })
}

// Whether the first rows can be written as a field.
fn check_field(form: Form, field: usize, values: &Values<'_>) -> Result<Size, Refusal>
    ensures small { IfOk result (λ z. z.bytes ≤ 65535) }
    ensures size { result ≡ sized (length values.now.rows.now) (placed field (field_step (shape_of form) values.now.bytes.now values.now.rows.now)) }
{
    match form {
        Form::Name(_) => Ok(Size { bytes: 8, rows: 0 }),
        Form::Fill(_, w) => Ok(Size {
            bytes: usize::from(w),
            rows: 0,
        }),
        Form::Figures(w, rule) => check_row(Piece::Figures(w, rule), field, values),
        Form::Letters(w, class, rule) => check_row(Piece::Letters(w, class, rule), field, values),
        Form::Code(a, b, c, d) => check_row(Piece::Code(a, b, c, d), field, values),
        Form::Block(_, counts, texts) => check_block(counts, texts, field, values),
    }
}

// Whether the rows can be written as the fields of layout j, and how far they reach.
pub(crate) fn check_fields<S: LayoutSet>(
    set: &S,
    j: usize,
    values: &Values<'_>,
) -> Result<Size, Refusal>
    ensures { result ≡ sized (length values.now.rows.now) (field_steps 1 (layout_at (S.meaning set.now) j) values.now.bytes.now values.now.rows.now) }
{
    let mut bytes = 0;
    let mut rows = 0;
    for (k, f) in fields_of(set, j).enumerate() {
        let next = check_field(Form::from(f), k + 1, &values.skip(rows))?;
        bytes += next.bytes;
        rows += next.rows;
    }
    Ok(Size { bytes, rows })
}
