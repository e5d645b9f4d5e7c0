// The rows of one field of a line.
ghost use Rattle.std.specs.Prelude.{◌≡◌, ℕ, ◌+◌, ◌*◌, ◌^◌, ◌<◌, ◌≤◌, true, ◌∷◌, length, take, drop, slice_set};
ghost use Rattle.basics.specs.declared.bytes.ByteClass.TheVariants.{Digit};
ghost use Rattle.basics.specs.Bytes.{allowed, all};
ghost use Rattle.basics.specs.Decimals.{number_of};
ghost use Rattle.lines.specs.Belongs.{Lawful};
ghost use Rattle.values.specs.Forms.{shape_of};
ghost use Rattle.values.specs.Values.{extent};
ghost use Rattle.values.specs.Rows.{number_row, text_row, line_rows, field_rows, laid};
ghost use Rattle.reading.specs.Reading.{Narrow};

use basics::decimal;
use basics::rows::RowStack;
use basics::text::trimmed;
use values::form::Form;
use values::row::ValueRow;

// The number of at most 19 digits.
fn number_in(part: &[u8]) -> u64
    requires { (all (allowed Digit) part.now ≡ true) × (length part.now ≤ 19) }
    ensures { result ≡ number_of part.now }
{
    decimal::value(part).unwrap_or(0)
}

fn number_row(number: u64) -> ValueRow
    ensures { result ≡ number_row number }
{
    ValueRow {
        number,
        place: 0,
        length: 0,
    }
}

fn text_row(before: usize, part: &[u8]) -> ValueRow
    requires { before < 2 ^ 63 }
    ensures { result ≡ text_row before part.now }
{
    ValueRow {
        number: 0,
        place: before + 1,
        length: trimmed(part).len(),
    }
}

// A part of a line, behind so many bytes of it.
#[derive(Clone, Copy)]
pub(crate) struct Cut<'a> {
    pub(crate) part: &'a [u8],
    pub(crate) before: usize,
    // Bytes of a line can be counted.
    ghost near: { before + length part.now < 2 ^ 63 },
}

// Puts a row on top of a stack that has a free one.
fn lay(stack: &mut RowStack<'_, ValueRow>, row: ValueRow)
    requires { stack.old.used < length stack.old.rows.now }
    ensures lent { stack.new.rows.ghost_name ≡ stack.old.rows.ghost_name }
    ensures laid { stack.new.rows.now ≡ slice_set stack.old.rows.now stack.old.used row }
    ensures used { stack.new.used ≡ stack.old.used + 1 }
{
    let _ = stack.push(row);
}

impl Cut<'_> {
    // Puts a row for each of n lines. By number: over `chunks_exact(35)` the contract would have to find
    // n in the length, and each row's place would need the index all the same.
    fn put_lines(&self, n: usize, stack: &mut RowStack<'_, ValueRow>)
        requires whole { (length self.now.part.now ≡ 35 * n) × (n < 100) }
        requires room { stack.old.used + n ≤ length stack.old.rows.now }
        ensures lent { stack.new.rows.ghost_name ≡ stack.old.rows.ghost_name }
        ensures rows { stack.new.rows.now ≡ laid stack.old.rows.now stack.old.used (line_rows n self.now.before self.now.part.now) }
        ensures used { stack.new.used ≡ stack.old.used + n }
    {
        for k in 0..n {
            let at = 35 * k;
            lay(stack, text_row(self.before + at, &self.part[at..at + 35]));
        }
    }

    // Puts the rows of a block.
    fn put_block(&self, stack: &mut RowStack<'_, ValueRow>)
        requires counted { all (allowed Digit) (take 2 self.now.part.now) ≡ true }
        requires whole { (length self.now.part.now ≡ 2 + 35 * number_of (take 2 self.now.part.now)) × (number_of (take 2 self.now.part.now) < 100) }
        requires room { stack.old.used + (1 + number_of (take 2 self.now.part.now)) ≤ length stack.old.rows.now }
        ensures lent { stack.new.rows.ghost_name ≡ stack.old.rows.ghost_name }
        ensures rows { stack.new.rows.now ≡ laid stack.old.rows.now stack.old.used (number_row (number_of (take 2 self.now.part.now)) ∷ line_rows (number_of (take 2 self.now.part.now)) (self.now.before + 2) (drop 2 self.now.part.now)) }
        ensures used { stack.new.used ≡ stack.old.used + (1 + number_of (take 2 self.now.part.now)) }
    {
        let n = number_in(&self.part[0..2]);
        lay(stack, number_row(n));
        let lines = Cut {
            part: &self.part[2..],
            before: self.before + 2,
        };
        lines.put_lines(n as usize, stack);
    }

    // Puts the rows of a field's part.
    pub(crate) fn put(&self, form: Form, stack: &mut RowStack<'_, ValueRow>)
        requires lawful { (Lawful (shape_of form) self.now.part.now) × (Narrow (shape_of form)) }
        requires room { stack.old.used + length (field_rows (shape_of form) self.now.before self.now.part.now) ≤ length stack.old.rows.now }
        ensures lent { stack.new.rows.ghost_name ≡ stack.old.rows.ghost_name }
        ensures rows { stack.new.rows.now ≡ laid stack.old.rows.now stack.old.used (field_rows (shape_of form) self.now.before self.now.part.now) }
        ensures used { stack.new.used ≡ stack.old.used + length (field_rows (shape_of form) self.now.before self.now.part.now) }
    {
        match form {
            Form::Name(_) | Form::Fill(_, _) => {}
            Form::Figures(_, _) => lay(stack, number_row(number_in(self.part))),
            Form::Letters(_, _, _) => lay(stack, text_row(self.before, self.part)),
            Form::Code(_, _, _, _) => lay(stack, number_row(u64::from(self.part[0]))),
            Form::Block(_, _, _) => self.put_block(stack),
        }
    }
}

// How many rows a field's part takes.
pub(crate) fn count_part(form: Form, part: &[u8]) -> usize
    requires { Lawful (shape_of form) part.now }
    ensures few { result ≤ 100 }
    ensures rows { (before : ℕ) → result ≡ length (field_rows (shape_of form) before part.now) }
{
    match form {
        Form::Name(_) => 0,
        Form::Fill(_, _) => 0,
        Form::Figures(_, _) => 1,
        Form::Letters(_, _, _) => 1,
        Form::Code(_, _, _, _) => 1,
        Form::Block(_, _, _) => 1 + number_in(&part[0..2]) as usize,
    }
}

// How many bytes a field takes of what is left of its line.
fn width_in(form: Form, rest: &[u8]) -> usize
    requires { Lawful (shape_of form) (take (extent (shape_of form) rest.now) rest.now) }
    ensures { result ≡ extent (shape_of form) rest.now }
{
    match form {
        Form::Name(_) => 8,
        Form::Fill(_, w) => usize::from(w),
        Form::Figures(w, _) => usize::from(w),
        Form::Letters(w, _, _) => usize::from(w),
        Form::Code(_, _, _, _) => 1,
        Form::Block(_, _, _) => 2 + 35 * number_in(&rest[0..2]) as usize,
    }
}

// The part of a field that begins behind so many bytes of its line.
pub(crate) fn part_at(form: Form, line: &[u8], before: usize) -> &[u8]
    requires here { before ≤ length line.now }
    requires lawful { Lawful (shape_of form) (take (extent (shape_of form) (drop before line.now)) (drop before line.now)) }
    ensures { result.now ≡ take (extent (shape_of form) (drop before line.now)) (drop before line.now) }
{
    let rest = &line[before..];
    &rest[0..width_in(form, rest)]
}
