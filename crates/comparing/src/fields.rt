// The rows of a layout, field by field, against those of another list. Not derived, as in `same`.
ghost use Rattle.std.specs.Prelude.{◌≡◌};
ghost use Rattle.layouts.specs.Layouts.{layout_at};
ghost use Rattle.comparing.specs.Comparing.{same_rows};

use crate::same::same_field;
use layouts::fields::fields_of;
use layouts::set::LayoutSet;
use values::form::Form;
use values::row::Values;

// Whether the rows are equal under layout j.
pub(crate) fn same_fields<S: LayoutSet>(
    set: &S,
    j: usize,
    values: &Values<'_>,
    other: &Values<'_>,
) -> bool
    ensures { result ≡ same_rows (layout_at (S.meaning set.now) j) values.now.bytes.now values.now.rows.now other.now.bytes.now other.now.rows.now }
{
    let mut left = *values;
    let mut other_left = *other;
    for f in fields_of(set, j) {
        let Some(n) = same_field(Form::from(f), &left, &other_left) else {
            return false;
        };
        left = left.skip(n);
        other_left = other_left.skip(n);
    }
    left.rows.is_empty() && other_left.rows.is_empty()
}
