// The values of a line.
ghost use Rattle.std.specs.Prelude.{◌≡◌, length, take, IfOk};
ghost use Rattle.lines.specs.Judging.{record_at};
ghost use Rattle.values.specs.Records.{ShowsRecord};
ghost use Rattle.reading.specs.Reading.{or_zero, answer_to, rows_after};

use crate::fields::{count_rows, put_rows};
use basics::refusal::{Layer, Reason, Refusal};
use layouts::field::Field;
use layouts::set::LayoutSet;
use lines::judge::judge;
use values::row::ValueRow;

// What was read: the digits of the line's layout, and how many rows its values took.
#[derive(Clone, Copy, Debug, PartialEq, Eq)]
pub struct Reading {
    pub digits: u32,
    pub rows: usize,
}

// The digits of a layout that begins with this field. A lawful layout begins with a record's name, so
// the 0 is never read; an `Option` would have to be opened by its caller.
fn digits_in(first: Option<Field>) -> u32
    ensures { result ≡ or_zero (record_at first) }
{
    match first {
        Some(Field::Record(d)) => d,
        _ => 0,
    }
}

// The rows of a line, by the definition that computes them.
fn read_rows<S: LayoutSet>(set: &S, line: &[u8], rows: &mut [ValueRow]) -> Result<Reading, Refusal>
    ensures answer { result ≡ answer_to (S.meaning set.now) line.now (length rows.old) }
    ensures memory { rows.new ≡ rows_after (S.meaning set.now) line.now rows.old }
{
    let j = judge(set, line)?;
    let needed = count_rows(set, j, line);
    if needed > rows.len() {
        return Err(Refusal::new(Reason::TooFewValueRows, Layer::Lines));
    }
    put_rows(set, j, line, rows);
    Ok(Reading {
        digits: digits_in(set.field(j, 1)),
        rows: needed,
    })
}

// Reads a line: its values into the first rows, or why it is not read, and then no row is changed.
// The rows behind those that the values take stay as they were.
pub fn read<S: LayoutSet>(set: &S, line: &[u8], rows: &mut [ValueRow]) -> Result<Reading, Refusal>
    ensures answer { result ≡ answer_to (S.meaning set.now) line.now (length rows.old) }
    ensures memory { rows.new ≡ rows_after (S.meaning set.now) line.now rows.old }
    ensures rows_show_the_values { IfOk result (λ x. ShowsRecord (S.meaning set.now) x.digits line.now (take x.rows rows.new) line.now) }
{
    read_rows(set, line, rows)
}
