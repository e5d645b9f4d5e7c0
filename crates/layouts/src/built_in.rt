// The built-in set: the four record types as fixed tables. Each is written out whole, as the format
// has it, though runs of their fields are alike.
ghost use Rattle.std.specs.Prelude.{◌≡◌};
ghost use Rattle.layouts.specs.Layouts.{place};
ghost use Rattle.layouts.specs.Tables.{built_in};
ghost use Rattle.std.proofs.Common.{rules};

use crate::field::Field;
use crate::set::LayoutSet;

// UBT04500, a payment: 421 to 2,101 bytes.
const PAYMENT: [Field; 22] = [
    Field::Record(4500),
    Field::Range(0, 0),
    Field::FilledText(35),
    Field::Amount,
    Field::Currency,
    Field::OneOf(b'N', b'N', b'N', b'N'),
    Field::Day,
    Field::Text(20),
    Field::FilledText(35),
    Field::OneOf(b'N', b'N', b'N', b'N'),
    Field::Number(3),
    Field::Text(20),
    Field::Text(35),
    Field::Text(35),
    Field::Number(3),
    Field::Lines(0, 4),
    Field::Lines(0, 41),
    Field::AllOrNoLines(3),
    Field::Blanks(153),
    Field::OneOf(b' ', b'N', b' ', b'N'),
    Field::Blanks(2),
    Field::Text(35),
];

// UBT04601, an advice with its texts: 368 to 2,048 bytes.
const ADVICE: [Field; 25] = [
    Field::Record(4601),
    Field::Range(1, 2),
    Field::FilledText(35),
    Field::Amount,
    Field::Currency,
    Field::OneOf(b'J', b'N', b'J', b'N'),
    Field::Day,
    Field::Text(20),
    Field::Number(10),
    Field::Number(2),
    Field::Number(19),
    Field::Number(3),
    Field::Lines(0, 4),
    Field::Lines(0, 41),
    Field::Lines(0, 3),
    Field::Blanks(145),
    Field::Zeros(6),
    Field::Blanks(2),
    Field::Text(16),
    Field::Number(16),
    Field::Number(12),
    Field::Day,
    Field::Text(25),
    Field::Text(3),
    Field::Text(3),
];

// UBT04602, an advice without texts: 242 bytes.
const SHORT_ADVICE: [Field; 21] = [
    Field::Record(4602),
    Field::Range(1, 3),
    Field::FilledText(35),
    Field::Amount,
    Field::Currency,
    Field::OneOf(b'J', b'N', b'J', b'N'),
    Field::Day,
    Field::Text(20),
    Field::Number(10),
    Field::Number(2),
    Field::Number(19),
    Field::Number(3),
    Field::Text(16),
    Field::Number(16),
    Field::Number(12),
    Field::Day,
    Field::Text(25),
    Field::Text(3),
    Field::Text(3),
    Field::DayOrZero,
    Field::Text(25),
];

// UBT05401, a foreign cheque: 536 to 816 bytes.
const CHEQUE: [Field; 31] = [
    Field::Record(5401),
    Field::Range(1, 2),
    Field::FilledText(35),
    Field::Amount,
    Field::Currency,
    Field::OneOf(b'J', b'N', b'J', b'N'),
    Field::Day,
    Field::Text(20),
    Field::Text(11),
    Field::Number(12),
    Field::OneOf(b'M', b'N', b'M', b'N'),
    Field::Blanks(1),
    Field::FilledText(2),
    Field::OneOf(b'C', b'D', b'C', b'D'),
    Field::Blanks(145),
    Field::Zeros(6),
    Field::Blanks(2),
    Field::Lines(3, 4),
    Field::Lines(0, 4),
    Field::Lines(0, 3),
    Field::Text(40),
    Field::Range(0, 2),
    Field::Number(12),
    Field::Number(15),
    Field::Text(16),
    Field::Number(16),
    Field::Number(12),
    Field::Day,
    Field::Text(25),
    Field::Text(3),
    Field::Text(3),
];

// The field at place i of a layout, counted from 1, or none.
pub fn field_at(table: &[Field], i: usize) -> Option<Field>
    ensures { result ≡ place table.now i }
{
    table.get(i.checked_sub(1)?).copied()
}

// The set of the four tables.
#[derive(Clone, Copy)]
pub struct BuiltIn;

impl LayoutSet for BuiltIn {
    ghost meaning = { λ s. built_in };

    ghost lawful = { Prim.search rules };

    fn layouts(&self) -> usize {
        4
    }

    fn field(&self, j: usize, i: usize) -> Option<Field> {
        match j {
            1 => field_at(&PAYMENT, i),
            2 => field_at(&ADVICE, i),
            3 => field_at(&SHORT_ADVICE, i),
            4 => field_at(&CHEQUE, i),
            _ => None,
        }
    }
}
