// A second layout set, as any user may write one: two layouts in constant tables.
ghost use Rattle.line_cases.specs.Tiny.{tiny};
ghost use Rattle.std.proofs.Common.{rules};

use layouts::built_in::field_at;
use layouts::field::Field;
use layouts::set::LayoutSet;

// UBT99900: an amount and a currency.
const SHORT: [Field; 3] = [Field::Record(99900), Field::Amount, Field::Currency];

// UBT99901: the same, and at most two lines.
const WITH_LINES: [Field; 4] = [
    Field::Record(99901),
    Field::Amount,
    Field::Currency,
    Field::Lines(0, 2),
];

#[derive(Clone, Copy)]
pub struct Tiny;

impl LayoutSet for Tiny {
    ghost meaning = { λ s. tiny };

    ghost lawful = { Prim.search rules };

    fn layouts(&self) -> usize {
        2
    }

    fn field(&self, j: usize, i: usize) -> Option<Field> {
        match j {
            1 => field_at(&SHORT, i),
            2 => field_at(&WITH_LINES, i),
            _ => None,
        }
    }
}
