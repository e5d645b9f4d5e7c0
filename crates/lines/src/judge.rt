// The judgement of one line.
ghost use Rattle.std.specs.Prelude.{◌≡◌, ℕ, Some, Ok, Err};
ghost use Rattle.basics.specs.declared.refusal.Refusal.{Refusal};
ghost use Rattle.layouts.specs.Layouts.{layout_at, same_number};
ghost use Rattle.lines.specs.Belongs.{BelongsAs};
ghost use Rattle.lines.specs.Refuses.{Refuses};
ghost use Rattle.lines.specs.Judging.{record_at, found, walked, judged};

use crate::field_check::Start;
use crate::part::fault;
use basics::decimal;
use basics::refusal::{Reason, Refusal};
use layouts::field::Field;
use layouts::fields::fields_of;
use layouts::set::LayoutSet;

// Whether a layout that begins with this field has these digits.
fn has_digits(first: Option<Field>, digits: u64) -> bool
    ensures { result ≡ same_number (Some digits) (record_at first) }
{
    matches!(first, Some(Field::Record(d)) if u64::from(d) == digits)
}

// The number of the layout that has these digits.
pub fn find<S: LayoutSet>(set: &S, digits: u64) -> Option<usize>
    ensures { result ≡ found (S.meaning set.now) 1 digits }
{
    // By number, by which alone a set is asked.
    for j in 1..=set.layouts() {
        if has_digits(set.field(j, 1), digits) {
            return Some(j);
        }
    }
    None
}

// The line against the fields of layout j, in their order.
fn walk<S: LayoutSet>(set: &S, j: usize, line: &[u8]) -> Result<usize, Refusal>
    ensures { result ≡ walked line.now j (layout_at (S.meaning set.now) j) 1 0 }
{
    // Counted by hand: the field behind the last has a number too, for bytes left over.
    let mut i = 1;
    let mut place = 0;
    for f in fields_of(set, j) {
        let start = Start {
            line,
            field: i,
            place,
        };
        place = start.field(f)?;
        i += 1;
    }
    if place < line.len() {
        return Err(fault(Reason::BytesLeftOver, i, place + 1));
    }
    Ok(j)
}

// The layout's number or the first fault, by the definition that computes it.
fn judge_fields<S: LayoutSet>(set: &S, line: &[u8]) -> Result<usize, Refusal>
    ensures { result ≡ judged (S.meaning set.now) line.now }
{
    if line.len() < 8 {
        return Err(fault(Reason::LineEndsEarly, 1, line.len() + 1));
    }
    let Some(digits) = decimal::value(&line[3..8]) else {
        return Err(fault(Reason::UnknownRecord, 1, 1));
    };
    match find(set, digits) {
        Some(j) => walk(set, j, line),
        None => Err(fault(Reason::UnknownRecord, 1, 1)),
    }
}

// The number of the layout that the line belongs to, or the line's first fault. Only the set's two
// questions are asked.
pub fn judge<S: LayoutSet>(set: &S, line: &[u8]) -> Result<usize, Refusal>
    ensures answer_is_the_first_fault { result ≡ judged (S.meaning set.now) line.now }
    ensures accepted_exactly_when_it_belongs { (j : ℕ) → (result ≡ Ok j → BelongsAs (S.meaning set.now) j line.now) × (BelongsAs (S.meaning set.now) j line.now → result ≡ Ok j) }
    ensures refused_exactly_as_the_rules_say { (e : Refusal) → (result ≡ Err e → Refuses (S.meaning set.now) line.now e) × (Refuses (S.meaning set.now) line.now e → result ≡ Err e) }
{
    judge_fields(set, line)
}
