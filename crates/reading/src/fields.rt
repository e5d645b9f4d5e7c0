// The fields of a line, one after another. A layout is told by its set and its number, as in the set's
// own calls.
ghost use Rattle.std.specs.Prelude.{◌≡◌, ◌≤◌, ◌++◌, length, drop};
ghost use Rattle.layouts.specs.Layouts.{layout_at};
ghost use Rattle.lines.specs.Belongs.{Follows};
ghost use Rattle.values.specs.Rows.{rows_of};

use crate::parts::{Cut, count_part, part_at};
use basics::rows::RowStack;
use layouts::fields::fields_of;
use layouts::set::LayoutSet;
use values::form::Form;
use values::row::ValueRow;

// How many rows the values of a line of layout j take.
pub(crate) fn count_rows<S: LayoutSet>(set: &S, j: usize, line: &[u8]) -> usize
    requires { Follows (layout_at (S.meaning set.now) j) line.now }
    ensures { result ≡ length (rows_of (layout_at (S.meaning set.now) j) line.now) }
{
    let mut needed = 0;
    let mut before = 0;
    for f in fields_of(set, j) {
        let form = Form::from(f);
        let part = part_at(form, line, before);
        needed += count_part(form, part);
        before += part.len();
    }
    needed
}

// Puts the rows of a line of layout j in front of the others, which stay as they were.
pub(crate) fn put_rows<S: LayoutSet>(set: &S, j: usize, line: &[u8], rows: &mut [ValueRow])
    requires follows { Follows (layout_at (S.meaning set.now) j) line.now }
    requires room { length (rows_of (layout_at (S.meaning set.now) j) line.now) ≤ length rows.old }
    ensures { rows.new ≡ rows_of (layout_at (S.meaning set.now) j) line.now ++ drop (length (rows_of (layout_at (S.meaning set.now) j) line.now)) rows.old }
{
    let mut stack = RowStack::over(rows, 0);
    let mut before = 0;
    for f in fields_of(set, j) {
        let form = Form::from(f);
        let part = part_at(form, line, before);
        let cut = Cut { part, before };
        cut.put(form, &mut stack);
        before += part.len();
    }
}
