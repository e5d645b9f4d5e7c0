// Amounts and currencies.
ghost use Rattle.std.specs.Prelude.{◌≡◌, true, false, Some, MatchOption};
ghost use Rattle.basics.specs.Money.{is_amount, is_currency, with_point};

use crate::bytes::{ByteClass, first_forbidden};
use std::fmt;

// An amount in hundredths, from 1 to 999,999,999,999,999. No other number can be one: `new` is the
// only way in.
#[derive(Clone, Copy, Debug, PartialEq, Eq, PartialOrd, Ord)]
pub struct Amount {
    hundredths: u64,
    ghost payable: { is_amount hundredths ≡ true },
}

impl Amount {
    // The amount of so many hundredths, if there is one.
    pub fn new(hundredths: u64) -> Option<Amount>
        ensures { MatchOption result (is_amount hundredths ≡ false) (λ a. (is_amount hundredths ≡ true) × (a.hundredths ≡ hundredths)) }
    {
        if hundredths >= 1 && hundredths <= 999_999_999_999_999 {
            Some(Amount { hundredths })
        } else {
            None
        }
    }

    // The amount in hundredths.
    pub fn hundredths(&self) -> u64
        ensures value { result ≡ self.now.hundredths }
        ensures payable { is_amount result ≡ true }
    {
        self.hundredths
    }
}

// A currency: three capital letters. No other bytes can be one: `new` is the only way in.
#[derive(Clone, Copy, Debug, PartialEq, Eq)]
pub struct Currency {
    letters: [u8; 3],
    ghost capitals: { is_currency letters ≡ true },
}

impl Currency {
    // The currency that these bytes name, if they name one.
    pub fn new(bytes: &[u8]) -> Option<Currency>
        ensures { MatchOption result (is_currency bytes.now ≡ false) (λ c. (is_currency bytes.now ≡ true) × (c.letters ≡ bytes.now)) }
    {
        let letters: [u8; 3] = bytes.try_into().ok()?;
        if first_forbidden(ByteClass::Capital, bytes).is_some() {
            return None;
        }
        Some(Currency { letters })
    }

    // The three letters.
    pub fn letters(&self) -> [u8; 3]
        ensures value { result ≡ self.now.letters }
        ensures capitals { is_currency result ≡ true }
    {
        self.letters
    }
}

// Hundredths, printed as wholes and two digits behind a point: an amount, or a sum of amounts.
#[derive(Clone, Copy)]
pub struct Hundredths(pub u64);

impl fmt::Display for Hundredths {
    ghost output = { λ h. Some (with_point h.0) };

    fn fmt<W: fmt::Write>(&self, f: &mut fmt::Formatter<W>) -> fmt::Result {
        let whole = self.0 / 100;
        let tens = self.0 / 10 % 10;
        let ones = self.0 % 10;
        write!(f, "{whole}.{tens}{ones}")
    }
}
