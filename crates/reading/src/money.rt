// The amount and the currency of a line.
ghost use Rattle.std.specs.Prelude.{◌≡◌, true, Err, MatchResult};
ghost use Rattle.basics.specs.Decimals.{number_of};
ghost use Rattle.basics.specs.Money.{is_amount, is_currency};
ghost use Rattle.layouts.specs.Kinds.{figures};
ghost use Rattle.layouts.specs.Layouts.{layout_at};
ghost use Rattle.lines.specs.Belongs.{Fit, Follows};
ghost use Rattle.lines.specs.Judging.{judged};
ghost use Rattle.values.specs.Values.{cuts};
ghost use Rattle.values.specs.Money.{part_of, HasMoney};

use crate::parts::part_at;
use basics::decimal;
use basics::money::{Amount, Currency};
use basics::refusal::Refusal;
use lawful::layout::letter_of;
use layouts::fields::fields_of;
use layouts::set::LayoutSet;
use lines::judge::judge;
use values::form::Form;

// What a line pays.
#[derive(Clone, Copy)]
pub struct Money {
    pub amount: Amount,
    pub currency: Currency,
}

// The part of the first field of a kind, in a line of layout j. The kind is told by its letter, which
// is its name in the rules and in the definition.
fn part_of<'a, S: LayoutSet>(set: &S, j: usize, line: &'a [u8], kind: u8) -> &'a [u8]
    requires { Follows (layout_at (S.meaning set.now) j) line.now }
    ensures { result.now ≡ part_of kind (layout_at (S.meaning set.now) j) (cuts (layout_at (S.meaning set.now) j) line.now) }
{
    let mut before = 0;
    for f in fields_of(set, j) {
        let part = part_at(Form::from(f), line, before);
        if letter_of(f) == kind {
            return part;
        }
        before += part.len();
    }
    &line[0..0]
}

// The amount that a P field shows.
fn amount_in(part: &[u8]) -> Amount
    requires { Fit (figures 15 is_amount 17) part.now }
    ensures { result.hundredths ≡ number_of part.now }
{
    let hundredths = decimal::value(part).unwrap_or(0);
    Amount::new(hundredths).unwrap()
}

// The currency that a V field shows.
fn currency_in(part: &[u8]) -> Currency
    requires { is_currency part.now ≡ true }
    ensures { result.letters ≡ part.now }
{
    Currency::new(part).unwrap()
}

// What a line pays, or the line's first fault. Both are values that reading the line gives.
pub fn read_money<S: LayoutSet>(set: &S, line: &[u8]) -> Result<Money, Refusal>
    ensures { MatchResult result (λ m. HasMoney (S.meaning set.now) line.now m.amount.hundredths m.currency.letters) (λ e. judged (S.meaning set.now) line.now ≡ Err e) }
{
    let j = judge(set, line)?;
    let amount = amount_in(part_of(set, j, line, b'P'));
    let currency = currency_in(part_of(set, j, line, b'V'));
    Ok(Money { amount, currency })
}
