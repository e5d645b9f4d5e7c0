// A line from rows.
ghost use Rattle.std.specs.Prelude.{◌≡◌, ℕ, ◌≤◌, List, length, take, IfOk, Ok};
ghost use Rattle.lines.specs.Belongs.{Belongs};
ghost use Rattle.values.specs.Records.{ShowsRecord};
ghost use Rattle.values.specs.Writing.{line_for};
ghost use Rattle.writing.specs.Sizes.{in_front};
ghost use Rattle.writing.specs.Answers.{length_of, memory_after};

use crate::check::check_fields;
use crate::put::put_fields;
use basics::refusal::{Layer, Reason, Refusal};
use layouts::set::LayoutSet;
use lines::judge::find;
use values::row::Values;

// The line of these rows, by the definition that computes it.
fn write_line<S: LayoutSet>(
    set: &S,
    digits: u32,
    values: &Values<'_>,
    out: &mut [u8],
) -> Result<usize, Refusal>
    ensures answer { result ≡ length_of (length out.old) (line_for (S.meaning set.now) digits values.now.bytes.now values.now.rows.now) }
    ensures memory { out.new ≡ memory_after out.old (line_for (S.meaning set.now) digits values.now.bytes.now values.now.rows.now) }
{
    let Some(j) = find(set, u64::from(digits)) else {
        return Err(Refusal::new(Reason::UnknownDigits, Layer::Lines));
    };
    let size = check_fields(set, j, values)?;
    if size.rows < values.rows.len() {
        return Err(Refusal::new(Reason::RowsLeft, Layer::Lines));
    }
    if size.bytes > out.len() {
        return Err(Refusal::new(Reason::NoRoom, Layer::Lines));
    }
    put_fields(set, j, values, out);
    Ok(size.bytes)
}

// Writes values as the line of these digits in front of `out`, and
// answers its length; or why it is not written, and then `out` is as it was.
pub fn write<S: LayoutSet>(
    set: &S,
    digits: u32,
    values: &Values<'_>,
    out: &mut [u8],
) -> Result<usize, Refusal>
    ensures answer { result ≡ length_of (length out.old) (line_for (S.meaning set.now) digits values.now.bytes.now values.now.rows.now) }
    ensures memory { out.new ≡ memory_after out.old (line_for (S.meaning set.now) digits values.now.bytes.now values.now.rows.now) }
    ensures what_is_written_belongs { IfOk result (λ n. Belongs (S.meaning set.now) (take n out.new)) }
    ensures reading_what_was_written_gives_the_same_values { IfOk result (λ n. ShowsRecord (S.meaning set.now) digits values.now.bytes.now values.now.rows.now (take n out.new)) }
    ensures writing_what_was_read_gives_the_same_bytes { (line : List ℕ) → ShowsRecord (S.meaning set.now) digits values.now.bytes.now values.now.rows.now line → length line ≤ length out.old → (result ≡ Ok (length line)) × (out.new ≡ in_front line out.old) }
{
    write_line(set, digits, values, out)
}
