// One field of a line: its part is cut from the line, and its kind's check is handed that part.
ghost use Rattle.std.specs.Prelude.{◌≡◌, ℕ, ◌+◌, ◌-◌, ◌<◌, ◌≤◌, length, take, drop, MatchResult};
ghost use Rattle.basics.specs.Bytes.{allowed};
ghost use Rattle.basics.specs.Refusals.{refusal};
ghost use Rattle.layouts.specs.Kinds.{shape, block, constant, figures, letters, record_name, any_text};
ghost use Rattle.lines.specs.Rules.{number_test, number_refusal, text_test};
ghost use Rattle.lines.specs.Judging.{part_end, field_end};

use crate::part::{Part, fault};
use crate::rules::{NumberRule, TextRule};
use basics::bytes::ByteClass;
use basics::decimal;
use basics::refusal::{Reason, Refusal};
use layouts::field::Field;

// Where the next part of a field begins: behind so many bytes of its line.
#[derive(Clone, Copy)]
pub(crate) struct Start<'a> {
    pub(crate) line: &'a [u8],
    pub(crate) field: usize,
    pub(crate) place: usize,
    ghost inside: { place ≤ length line.now },
}

// UBT and the five digits of a record.
fn record_name(digits: u32) -> [u8; 8]
    ensures { result ≡ record_name digits }
{
    let mut name = *b"UBT00000";
    decimal::put(&mut name[3..8], u64::from(digits));
    name
}

impl<'a> Start<'a> {
    // The part of so many bytes that begins here.
    fn part(&self, width: usize) -> Result<Part<'a>, Refusal>
        ensures { MatchResult result (λ s. (s.bytes.now ≡ take width (drop self.now.place self.now.line.now)) × (width ≤ length self.now.line.now - self.now.place) × (length s.bytes.now ≡ width) × (s.field ≡ self.now.field) × (s.place ≡ self.now.place)) (λ e. (e ≡ refusal 11 2 0 self.now.field (length self.now.line.now + 1)) × (length self.now.line.now - self.now.place < width)) }
    {
        let Start { line, field, place } = *self;
        if line.len() - place < width {
            return Err(fault(Reason::LineEndsEarly, field, line.len() + 1));
        }
        Ok(Part {
            bytes: &line[place..place + width],
            field,
            place,
        })
    }

    // The place behind the record's name.
    fn record(&self, digits: u32) -> Result<usize, Refusal>
        ensures { result ≡ part_end (constant (record_name digits)) self.now.field self.now.place self.now.line.now }
    {
        self.part(8)?.constant(&record_name(digits))
    }

    // The place behind so many digits whose number is to keep a rule.
    fn figures(&self, rule: NumberRule, width: usize) -> Result<usize, Refusal>
        requires { width ≤ 19 }
        ensures { result ≡ part_end (figures width (number_test rule) (number_refusal rule)) self.now.field self.now.place self.now.line.now }
    {
        self.part(width)?.figures(rule)
    }

    // The place behind so many bytes of a class whose text is to keep a rule.
    fn letters(&self, class: ByteClass, rule: TextRule, width: usize) -> Result<usize, Refusal>
        ensures { result ≡ part_end (letters width (allowed class) (text_test rule) 14) self.now.field self.now.place self.now.line.now }
    {
        self.part(width)?.letters(class, rule)
    }

    // The place behind so many bytes of a class, which may be any of it.
    fn bytes_of(&self, class: ByteClass, width: usize) -> Result<usize, Refusal>
        ensures { result ≡ part_end (letters width (allowed class) any_text 14) self.now.field self.now.place self.now.line.now }
    {
        self.letters(class, TextRule::Any, width)
    }

    // The place behind a block, whose count is checked before its lines are cut.
    fn block(&self, counts: NumberRule, texts: TextRule) -> Result<usize, Refusal>
        requires { number_refusal counts ≡ 15 }
        ensures { (high : ℕ) → result ≡ field_end (block high (number_test counts) (text_test texts)) self.now.field self.now.place self.now.line.now }
    {
        let Start { line, field, place } = *self;
        let n = self.part(2)?.number(counts)? as usize;
        let behind = Start {
            line,
            field,
            place: place + 2,
        };
        behind.part(35 * n)?.lines(texts)
    }

    // The place behind a field of the line, or its first fault.
    pub(crate) fn field(&self, f: Field) -> Result<usize, Refusal>
        ensures { result ≡ field_end (shape f) self.now.field self.now.place self.now.line.now }
    {
        match f {
            Field::Record(digits) => self.record(digits),
            Field::Range(low, high) => self.figures(NumberRule::Between(low, high), 2),
            Field::Number(w) => self.bytes_of(ByteClass::Digit, usize::from(w)),
            Field::Zeros(w) => self.bytes_of(ByteClass::Zero, usize::from(w)),
            Field::Text(w) => self.bytes_of(ByteClass::Text, usize::from(w)),
            Field::FilledText(w) => self.letters(ByteClass::Text, TextRule::Filled, usize::from(w)),
            Field::Blanks(w) => self.bytes_of(ByteClass::Blank, usize::from(w)),
            Field::Day => self.figures(NumberRule::Day, 8),
            Field::DayOrZero => self.figures(NumberRule::DayOrZero, 8),
            Field::Amount => self.figures(NumberRule::Amount, 15),
            Field::Currency => self.bytes_of(ByteClass::Capital, 3),
            Field::OneOf(a, b, c, d) => self.bytes_of(ByteClass::OneOf(a, b, c, d), 1),
            Field::Lines(low, high) => self.block(NumberRule::Between(low, high), TextRule::Any),
            Field::AllOrNoLines(n) => self.block(NumberRule::NoneOr(n), TextRule::Filled),
        }
    }
}
