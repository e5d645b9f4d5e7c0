// Rows of one field, against those of another list. This is not derived: what a row does not use is
// set aside, and texts are compared where they lie.
ghost use Rattle.std.specs.Prelude.{◌≡◌};
ghost use Rattle.values.specs.Forms.{shape_of};
ghost use Rattle.comparing.specs.Comparing.{same_number, same_text, same_texts, same_block, same_field};

use values::form::Form;
use values::row::Values;
use values::text::text_of;

// Whether the first rows show the same number.
fn same_number(values: &Values<'_>, other: &Values<'_>) -> bool
    ensures { result ≡ same_number values.now.rows.now other.now.rows.now }
{
    let (Some(row), Some(other_row)) = (values.rows.first(), other.rows.first()) else {
        return false;
    };
    row.number == other_row.number
}

// Whether the first rows show the same text, each over its bytes.
fn same_text(values: &Values<'_>, other: &Values<'_>) -> bool
    ensures { result ≡ same_text values.now.bytes.now values.now.rows.now other.now.bytes.now other.now.rows.now }
{
    let (Some(row), Some(other_row)) = (values.rows.first(), other.rows.first()) else {
        return false;
    };
    let Some(text) = text_of(values.bytes, *row) else {
        return false;
    };
    let Some(other_text) = text_of(other.bytes, *other_row) else {
        return false;
    };
    text == other_text
}

// Whether the first n rows do.
fn same_texts(n: usize, values: &Values<'_>, other: &Values<'_>) -> bool
    ensures { result ≡ same_texts n values.now.bytes.now values.now.rows.now other.now.bytes.now other.now.rows.now }
{
    (0..n).all(|k| same_text(&values.skip(k), &other.skip(k)))
}

// How many rows a block has, if they are equal.
fn same_block(values: &Values<'_>, other: &Values<'_>) -> Option<usize>
    ensures { result ≡ same_block values.now.bytes.now values.now.rows.now other.now.bytes.now other.now.rows.now }
{
    let n = values.rows.first()?.number as usize;
    if same_number(values, other) && same_texts(n, &values.skip(1), &other.skip(1)) {
        Some(1 + n)
    } else {
        None
    }
}

// How many rows a field has, if they are equal.
pub(crate) fn same_field(form: Form, values: &Values<'_>, other: &Values<'_>) -> Option<usize>
    ensures { result ≡ same_field (shape_of form) values.now.bytes.now values.now.rows.now other.now.bytes.now other.now.rows.now }
{
    match form {
        Form::Name(_) | Form::Fill(_, _) => Some(0),
        Form::Figures(_, _) | Form::Code(_, _, _, _) => same_number(values, other).then_some(1),
        Form::Letters(_, _, _) => same_text(values, other).then_some(1),
        Form::Block(_, _, _) => same_block(values, other),
    }
}
