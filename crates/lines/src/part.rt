// One part of a field: its bytes may stand where they do, and its value passes.
ghost use Rattle.std.specs.Prelude.{◌≡◌, ℕ, Ok, ◌+◌, ◌*◌, ◌^◌, ◌<◌, ◌≤◌, not, ◌==◌, length, position};
ghost use Rattle.std.specs.List.{zip};
ghost use Rattle.basics.specs.declared.refusal.Layer as Layer;
ghost use Rattle.basics.specs.declared.bytes.ByteClass.TheVariants as class;
ghost use Rattle.basics.specs.Bytes.{allowed, anywhere};
ghost use Rattle.basics.specs.Decimals.{number_of};
ghost use Rattle.layouts.specs.Kinds.{constant, figures, letters};
ghost use Rattle.lines.specs.Rules.{number_test, number_refusal, text_test};
ghost use Rattle.lines.specs.Judging.{and_then, cleaned, part_in, numbered, each_line, lines_in};

use crate::rules::{NumberRule, TextRule};
use basics::bytes::{ByteClass, first_forbidden};
use basics::decimal;
use basics::refusal::{Layer, Reason, Refusal};

// A fault of a line.
pub(crate) fn fault(reason: Reason, field: usize, byte: usize) -> Refusal
    ensures { result ≡ record { reason = reason; layer = Layer.Lines; line = 0; field = field; byte = byte } }
{
    Refusal::new(reason, Layer::Lines)
        .in_field(field)
        .at_byte(byte)
}

// The bytes of a part, handed on from its line: the number of its field, and how many bytes of the
// line are before it.
#[derive(Clone, Copy)]
pub(crate) struct Part<'a> {
    pub(crate) bytes: &'a [u8],
    pub(crate) field: usize,
    pub(crate) place: usize,
    // Bytes of a line can be counted.
    ghost near: { place + length bytes.now < 2 ^ 63 },
}

// The index of the first byte that is not the expected one.
fn first_difference(expected: &[u8], bytes: &[u8]) -> Option<usize>
    ensures { result ≡ position (λ p. not (p.0 == p.1)) (zip bytes.now expected.now) }
{
    bytes.iter().zip(expected).position(|(b, e)| b != e)
}

impl Part<'_> {
    // The place behind the part.
    fn end(&self) -> usize
        ensures { result ≡ self.now.place + length self.now.bytes.now }
    {
        self.place + self.bytes.len()
    }

    // A fault at the byte of this index.
    fn fault_at(&self, reason: Reason, k: usize) -> Refusal
        requires { k ≤ length self.now.bytes.now }
        ensures { result ≡ record { reason = reason; layer = Layer.Lines; line = 0; field = self.now.field; byte = self.now.place + k + 1 } }
    {
        fault(reason, self.field, self.place + k + 1)
    }

    // The place behind the part, or its first byte that the class has not.
    pub(crate) fn clean(&self, class: ByteClass) -> Result<usize, Refusal>
        ensures { result ≡ cleaned (anywhere (allowed class)) self.now.field self.now.place self.now.bytes.now }
    {
        match first_forbidden(class, self.bytes) {
            Some(k) => Err(self.fault_at(Reason::ForbiddenByte, k)),
            None => Ok(self.end()),
        }
    }

    // The place behind a part that is to be these very bytes.
    pub(crate) fn constant(&self, expected: &[u8]) -> Result<usize, Refusal>
        requires { length expected.now ≡ length self.now.bytes.now }
        ensures { result ≡ part_in (constant expected.now) self.now.field self.now.place self.now.bytes.now }
    {
        match first_difference(expected, self.bytes) {
            Some(k) => Err(self.fault_at(Reason::ForbiddenByte, k)),
            None => Ok(self.end()),
        }
    }

    // The number of a part of digits. Most parts are digits: only where they are not is the first
    // other byte looked for.
    fn digits(&self) -> Result<u64, Refusal>
        requires { length self.now.bytes.now ≤ 19 }
        ensures { result ≡ and_then (cleaned (anywhere (allowed class.Digit)) self.now.field self.now.place self.now.bytes.now) (λ e. Ok (number_of self.now.bytes.now)) }
    {
        if let Some(n) = decimal::value(self.bytes) {
            return Ok(n);
        }
        self.clean(ByteClass::Digit)?;
        Ok(0)
    }

    // The number of a part of digits that is to keep a rule.
    pub(crate) fn number(&self, rule: NumberRule) -> Result<u64, Refusal>
        requires { length self.now.bytes.now ≤ 19 }
        ensures { result ≡ numbered (number_test rule) (number_refusal rule) self.now.field self.now.place self.now.bytes.now }
    {
        let n = self.digits()?;
        if !rule.passes(n) {
            return Err(self.fault_at(rule.reason(), 0));
        }
        Ok(n)
    }

    // The place behind a part of digits whose number is to keep a rule.
    pub(crate) fn figures(&self, rule: NumberRule) -> Result<usize, Refusal>
        requires { length self.now.bytes.now ≤ 19 }
        ensures { result ≡ part_in (figures (length self.now.bytes.now) (number_test rule) (number_refusal rule)) self.now.field self.now.place self.now.bytes.now }
    {
        self.number(rule)?;
        Ok(self.end())
    }

    // The place behind a part of bytes of a class whose text is to keep a rule.
    pub(crate) fn letters(&self, class: ByteClass, rule: TextRule) -> Result<usize, Refusal>
        ensures { result ≡ part_in (letters (length self.now.bytes.now) (allowed class) (text_test rule) 14) self.now.field self.now.place self.now.bytes.now }
    {
        let end = self.clean(class)?;
        if !rule.passes(self.bytes) {
            return Err(self.fault_at(Reason::BlankText, 0));
        }
        Ok(end)
    }

    // The place behind the lines of 35 bytes, each of which is to keep a rule.
    fn each_line(&self, rule: TextRule) -> Result<usize, Refusal>
        ensures { (n : ℕ) → length self.now.bytes.now ≡ 35 * n → result ≡ each_line (text_test rule) n self.now.field self.now.place self.now.bytes.now }
    {
        for (k, line) in self.bytes.chunks_exact(35).enumerate() {
            if !rule.passes(line) {
                return Err(self.fault_at(Reason::BlankText, 35 * k));
            }
        }
        Ok(self.end())
    }

    // The place behind the lines of a block: all their bytes are looked at first.
    pub(crate) fn lines(&self, rule: TextRule) -> Result<usize, Refusal>
        ensures { (n : ℕ) → length self.now.bytes.now ≡ 35 * n → result ≡ lines_in (text_test rule) n self.now.field self.now.place self.now.bytes.now }
    {
        self.clean(ByteClass::Text)?;
        self.each_line(rule)
    }
}
