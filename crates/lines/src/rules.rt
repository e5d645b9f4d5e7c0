// What the value of a part has to keep, beside the bytes that it may have.
ghost use Rattle.std.specs.Prelude.{◌≡◌};
ghost use Rattle.basics.specs.Refusals.{reason};
ghost use Rattle.layouts.specs.Kinds.{filled};
ghost use Rattle.lines.specs.Rules.{number_test, number_refusal, text_test};

use basics::calendar::Day;
use basics::money::Amount;
use basics::refusal::Reason;

// The numbers that a part may show. An enum, and no closure: contracts name the rules.
#[derive(Clone, Copy)]
pub enum NumberRule {
    Any,
    Between(u8, u8),
    NoneOr(u8),
    Day,
    DayOrZero,
    Amount,
}

impl NumberRule {
    pub fn passes(self, n: u64) -> bool
        ensures { result ≡ number_test self n }
    {
        match self {
            NumberRule::Any => true,
            NumberRule::Between(low, high) => u64::from(low) <= n && n <= u64::from(high),
            NumberRule::NoneOr(m) => n == 0 || n == u64::from(m),
            NumberRule::Day => Day::new(n).is_some(),
            NumberRule::DayOrZero => n == 0 || Day::new(n).is_some(),
            NumberRule::Amount => Amount::new(n).is_some(),
        }
    }

    // Why a number that does not pass is refused.
    pub fn reason(self) -> Reason
        ensures { result ≡ reason (number_refusal self) }
    {
        match self {
            NumberRule::Any | NumberRule::Between(_, _) | NumberRule::NoneOr(_) =>
                Reason::OutOfBounds,
            NumberRule::Day | NumberRule::DayOrZero => Reason::NoSuchDay,
            NumberRule::Amount => Reason::AmountZero,
        }
    }
}

// Whether the bytes are not all blank.
fn is_filled(part: &[u8]) -> bool
    ensures { result ≡ filled part.now }
{
    part.iter().any(|b| *b != b' ')
}

// The texts that a part may hold. An enum for the same reason.
#[derive(Clone, Copy)]
pub enum TextRule {
    Any,
    Filled,
}

impl TextRule {
    pub fn passes(self, part: &[u8]) -> bool
        ensures { result ≡ text_test self part.now }
    {
        match self {
            TextRule::Any => true,
            TextRule::Filled => is_filled(part),
        }
    }
}
