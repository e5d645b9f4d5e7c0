// One field of strips: a kind byte and the kind's body.
ghost use Rattle.std.specs.Prelude.{◌≡◌, length};
ghost use Rattle.basics.specs.declared.refusal.Layer as Layer;
ghost use Rattle.strips.specs.Loads.{field_from};
ghost use Rattle.strips.specs.Strips.{kind_of, body_width, number_in, pair_in, codes_in, field_in};

use basics::bytes::{ByteClass, first_forbidden};
use basics::decimal;
use basics::refusal::{Layer, Reason, Refusal};
use layouts::field::Field;

// The kinds of fields, without their figures.
#[derive(Clone, Copy, Debug, PartialEq, Eq)]
pub enum Kind {
    Record,
    Range,
    Number,
    Zeros,
    Text,
    FilledText,
    Blanks,
    Day,
    DayOrZero,
    Amount,
    Currency,
    OneOf,
    Lines,
    AllOrNoLines,
}

// The kind that the letter names. By rule the letters are matched as `char` literals, not as bytes.
pub(crate) fn kind_of(kind: u8) -> Option<Kind>
    ensures { result ≡ kind_of kind }
{
    match kind as char {
        'U' => Some(Kind::Record),
        'R' => Some(Kind::Range),
        'N' => Some(Kind::Number),
        'Z' => Some(Kind::Zeros),
        'T' => Some(Kind::Text),
        'Q' => Some(Kind::FilledText),
        'B' => Some(Kind::Blanks),
        'D' => Some(Kind::Day),
        'Y' => Some(Kind::DayOrZero),
        'P' => Some(Kind::Amount),
        'V' => Some(Kind::Currency),
        'E' => Some(Kind::OneOf),
        'L' => Some(Kind::Lines),
        'W' => Some(Kind::AllOrNoLines),
        _ => None,
    }
}

// How many bytes the kind's body has.
pub(crate) fn body_width(kind: Kind) -> usize
    ensures { result ≡ body_width kind }
{
    match kind {
        Kind::Record => 5,
        Kind::Range | Kind::OneOf | Kind::Lines => 4,
        Kind::Text | Kind::FilledText | Kind::Blanks => 3,
        Kind::Number | Kind::Zeros | Kind::AllOrNoLines => 2,
        Kind::Day | Kind::DayOrZero | Kind::Amount | Kind::Currency => 0,
    }
}

// The number that the digits show, if it lies in these bounds, which prove each caller's cast.
fn number_in(low: u64, high: u64, part: &[u8]) -> Option<u64>
    ensures { result ≡ number_in low high part.now }
{
    decimal::value(part).filter(|n| (low..=high).contains(n))
}

// Two numbers of two digits, neither above the bound and the first not above the second.
fn pair_in(most: u8, body: &[u8]) -> Option<(u8, u8)>
    requires { length body.now ≡ 4 }
    ensures { result ≡ pair_in most body.now }
{
    let low = number_in(0, u64::from(most), &body[..2])? as u8;
    let high = number_in(0, u64::from(most), &body[2..])? as u8;
    (low <= high).then_some((low, high))
}

// Four text bytes.
fn codes_in(body: &[u8]) -> Option<Field>
    requires { length body.now ≡ 4 }
    ensures { result ≡ codes_in body.now }
{
    match *body {
        [a, b, c, d] if first_forbidden(ByteClass::Text, body).is_none() => {
            Some(Field::OneOf(a, b, c, d))
        }
        _ => None,
    }
}

// The field that the kind and its body write, if the body keeps to the kind's rule.
fn field_in(kind: Kind, body: &[u8]) -> Option<Field>
    requires { length body.now ≡ body_width kind }
    ensures { result ≡ field_in kind body.now }
{
    match kind {
        Kind::Record => Some(Field::Record(number_in(0, 99_999, body)? as u32)),
        Kind::Range => {
            let (low, high) = pair_in(99, body)?;
            Some(Field::Range(low, high))
        }
        Kind::Number => Some(Field::Number(number_in(1, 19, body)? as u8)),
        Kind::Zeros => Some(Field::Zeros(number_in(1, 99, body)? as u8)),
        Kind::Text => Some(Field::Text(number_in(1, 999, body)? as u16)),
        Kind::FilledText => Some(Field::FilledText(number_in(1, 999, body)? as u16)),
        Kind::Blanks => Some(Field::Blanks(number_in(1, 999, body)? as u16)),
        Kind::Day => Some(Field::Day),
        Kind::DayOrZero => Some(Field::DayOrZero),
        Kind::Amount => Some(Field::Amount),
        Kind::Currency => Some(Field::Currency),
        Kind::OneOf => codes_in(body),
        Kind::Lines => {
            let (low, high) = pair_in(60, body)?;
            Some(Field::Lines(low, high))
        }
        Kind::AllOrNoLines => Some(Field::AllOrNoLines(number_in(1, 60, body)? as u8)),
    }
}

// A refusal of strips.
pub(crate) fn refused(reason: Reason, byte: usize) -> Refusal
    ensures { result ≡ record { reason = reason; layer = Layer.Strips; line = 0; field = 0; byte = byte } }
{
    Refusal::new(reason, Layer::Strips).at_byte(byte)
}

// The field of the kind whose letter stands at this byte, with the rest of the strips behind it.
pub(crate) fn field_at(kind: Kind, byte: usize, rest: &[u8]) -> Result<Field, Refusal>
    ensures { result ≡ field_from byte kind rest.now }
{
    let body = rest
        .get(..body_width(kind))
        .ok_or(refused(Reason::BodyCutShort, byte))?;
    field_in(kind, body).ok_or(refused(Reason::BodyBreaksItsRule, byte))
}
