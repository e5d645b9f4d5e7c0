// How a field stands in a line, as the table of kinds has it.
use basics::bytes::ByteClass;
use layouts::field::Field;
use lines::rules::{NumberRule, TextRule};

// An enum, and no closure: contracts name the forms, and several calls match on them.
#[derive(Clone, Copy)]
pub enum Form {
    // UBT and these five digits.
    Name(u32),
    // So many times this byte.
    Fill(u8, u16),
    // So many digits, whose number keeps a rule.
    Figures(u8, NumberRule),
    // So many bytes of a class, which keep a rule.
    Letters(u16, ByteClass, TextRule),
    // One of these four bytes.
    Code(u8, u8, u8, u8),
    // A count that is at most this high and keeps a rule, and so many lines that keep a rule.
    Block(u8, NumberRule, TextRule),
}

// The form of a field.
impl From<Field> for Form {
    ghost use Rattle.std.specs.Prelude.{◌≡◌};
    ghost use Rattle.layouts.specs.Kinds.{shape};
    ghost use Rattle.values.specs.Forms.{shape_of};

    ghost from_gives = { λ f form. shape_of form ≡ shape f };

    fn from(f: Field) -> Form {
        match f {
            Field::Record(d) => Form::Name(d),
            Field::Range(low, high) => Form::Figures(2, NumberRule::Between(low, high)),
            Field::Number(w) => Form::Figures(w, NumberRule::Any),
            Field::Zeros(w) => Form::Fill(b'0', u16::from(w)),
            Field::Text(w) => Form::Letters(w, ByteClass::Text, TextRule::Any),
            Field::FilledText(w) => Form::Letters(w, ByteClass::Text, TextRule::Filled),
            Field::Blanks(w) => Form::Fill(b' ', w),
            Field::Day => Form::Figures(8, NumberRule::Day),
            Field::DayOrZero => Form::Figures(8, NumberRule::DayOrZero),
            Field::Amount => Form::Figures(15, NumberRule::Amount),
            Field::Currency => Form::Letters(3, ByteClass::Capital, TextRule::Any),
            Field::OneOf(a, b, c, d) => Form::Code(a, b, c, d),
            Field::Lines(low, high) => Form::Block(
                high,
                NumberRule::Between(low, high),
                TextRule::Any,
            ),
            Field::AllOrNoLines(n) => Form::Block(n, NumberRule::NoneOr(n), TextRule::Filled),
        }
    }
}
