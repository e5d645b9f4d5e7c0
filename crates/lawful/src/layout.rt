// Which layouts are lawful.
ghost use Rattle.std.specs.Prelude.{◌≡◌, ◌≤◌, not, ◌&&◌, length, ◌==◌};
ghost use Rattle.layouts.specs.Kinds.{shape, most};
ghost use Rattle.layouts.specs.Layouts.{letter, figured, times, full_width, later, lawful_layout};

use basics::bytes::{ByteClass, allows};
use layouts::field::Field;

// The letter of the field's kind, which is the kind's name in the rules.
pub fn letter_of(f: Field) -> u8
    ensures { result ≡ letter f }
{
    match f {
        Field::Record(_) => b'U',
        Field::Range(_, _) => b'R',
        Field::Number(_) => b'N',
        Field::Zeros(_) => b'Z',
        Field::Text(_) => b'T',
        Field::FilledText(_) => b'Q',
        Field::Blanks(_) => b'B',
        Field::Day => b'D',
        Field::DayOrZero => b'Y',
        Field::Amount => b'P',
        Field::Currency => b'V',
        Field::OneOf(_, _, _, _) => b'E',
        Field::Lines(_, _) => b'L',
        Field::AllOrNoLines(_) => b'W',
    }
}

// Whether the field's figures are those that its kind allows.
fn is_figured(f: Field) -> bool
    ensures { result ≡ figured f }
{
    match f {
        Field::Record(d) => d < 100_000,
        Field::Range(low, high) => low <= high && high < 100,
        Field::Number(w) => (1..=19).contains(&w),
        Field::Zeros(w) => (1..=99).contains(&w),
        Field::Text(w) | Field::FilledText(w) | Field::Blanks(w) => (1..=999).contains(&w),
        Field::Day | Field::DayOrZero | Field::Amount | Field::Currency => true,
        Field::OneOf(a, b, c, d) => {
            let is_text = |x| allows(ByteClass::Text, x);
            is_text(a) && is_text(b) && is_text(c) && is_text(d)
        }
        Field::Lines(low, high) => low <= high && high <= 60,
        Field::AllOrNoLines(n) => (1..=60).contains(&n),
    }
}

// How many bytes the field has at most.
fn widest(f: Field) -> u16
    ensures { result ≡ most (shape f) }
{
    match f {
        Field::Record(_) => 8,
        Field::Range(_, _) => 2,
        Field::Number(w) | Field::Zeros(w) => u16::from(w),
        Field::Text(w) | Field::FilledText(w) | Field::Blanks(w) => w,
        Field::Day | Field::DayOrZero => 8,
        Field::Amount => 15,
        Field::Currency => 3,
        Field::OneOf(_, _, _, _) => 1,
        Field::Lines(_, high) | Field::AllOrNoLines(high) => 2 + 35 * u16::from(high),
    }
}

// How many fields are of the kind with this letter.
#[tactic(auto, using(crate::proofs::LawfulLaws::times_is_count))]
fn count_of(kind: u8, fields: &[Field]) -> usize
    ensures { result ≡ times kind fields.now }
{
    fields.iter().filter(|f| letter_of(**f) == kind).count()
}

// Whether the field may stand behind the first: it is no U, and its figures are allowed.
fn is_later(f: Field) -> bool
    ensures { result ≡ (not (letter f == 85) && figured f) }
{
    letter_of(f) != b'U' && is_figured(f)
}

// Whether every field may stand behind the first.
#[tactic(auto, using(crate::proofs::LawfulLaws::later_is_all))]
fn are_later(fields: &[Field]) -> bool
    ensures { result ≡ later fields.now }
{
    fields.iter().all(|f| is_later(*f))
}

// How many bytes a line of these fields has at most.
#[tactic(auto, using(crate::proofs::LawfulLaws::full_width_is_sum))]
fn full_width(fields: &[Field]) -> usize
    requires { length fields.now ≤ 64 }
    ensures { result ≡ full_width fields.now }
{
    fields.iter().map(|f| usize::from(widest(*f))).sum()
}

// Whether the fields are a lawful layout.
pub fn is_lawful(fields: &[Field]) -> bool
    ensures { result ≡ lawful_layout fields.now }
{
    let [first, rest @ ..] = fields else {
        return false;
    };
    // How many there are comes first: then a list of any length is gone over only where it is short.
    fields.len() <= 64
        && letter_of(*first) == b'U'
        && is_figured(*first)
        && are_later(rest)
        && count_of(b'P', rest) == 1
        && count_of(b'V', rest) == 1
        && full_width(fields) <= 2400
}
