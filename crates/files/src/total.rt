// The total of a file in a currency.
ghost use Rattle.std.specs.Prelude.{◌≡◌, ◌≤◌, true, false, IfOk, MatchResult};
ghost use Rattle.basics.specs.Money.{is_currency};
ghost use Rattle.basics.specs.Refusals.{refusal};
ghost use Rattle.lines.specs.Judging.{judged};
ghost use Rattle.files.specs.Files.{at_line};
ghost use Rattle.files.specs.Totals.{same, worth, summed, total_of, paid_by};

use crate::cut::lines_of;
use crate::judge_file::{few_so_far, walked_lines, whole_lines};
use basics::money::Currency;
use basics::refusal::{Layer, Reason, Refusal};
use layouts::set::LayoutSet;
use reading::money::read_money;

// The currency that the bytes name, or 39.
pub(crate) fn currency_of(bytes: &[u8]) -> Result<Currency, Refusal>
    ensures { MatchResult result (λ c. (is_currency bytes.now ≡ true) × (c.letters ≡ bytes.now)) (λ e. (is_currency bytes.now ≡ false) × (e ≡ refusal 39 3 0 0 0)) }
{
    Currency::new(bytes).ok_or(Refusal::new(Reason::NotACurrency, Layer::Files))
}

// What line n pays in the currency, or its first fault as a fault of line n.
#[tactic(auto, using(crate::proofs::Sums::pointwise_same))]
fn paid_in<S: LayoutSet>(set: &S, line: &[u8], n: usize, currency: Currency) -> Result<u64, Refusal>
    ensures paid { result ≡ at_line n (paid_by (S.meaning set.now) currency.letters line.now (judged (S.meaning set.now) line.now)) }
    ensures few { IfOk result (λ a. a ≤ 999999999999999) }
{
    let money = read_money(set, line).map_err(|e| e.in_line(n))?;
    if money.currency == currency {
        Ok(money.amount.hundredths())
    } else {
        Ok(0)
    }
}

// The sum over the lines in the currency, or the file's first fault.
// 1,200 amounts of at most 15 digits fit.
pub(crate) fn sum_lines<S: LayoutSet>(
    set: &S,
    bytes: &[u8],
    currency: Currency,
) -> Result<u64, Refusal>
    ensures sum { result ≡ summed (S.meaning set.now) bytes.now currency.letters }
    ensures few { IfOk result (λ s. s ≤ 1199999999999998800) }
{
    // No `for` over `left.by_ref()`: the proof did not close, since what is left is not known then.
    let mut left = lines_of(bytes);
    let mut count = 0;
    let mut sum: u64 = 0;
    while let Some(line) = left.next() {
        count += 1;
        few_so_far(bytes, count)?;
        match paid_in(set, line, count, currency) {
            // Only a sum of more than 1,200 amounts may not fit, and then the file is refused.
            Ok(paid) => sum = sum.saturating_add(paid),
            Err(e) => {
                // 22 and 23 come before the faults of lines.
                whole_lines(bytes)?;
                return Err(e);
            }
        }
    }
    walked_lines(bytes, count, left.rest())?;
    Ok(sum)
}

// The sum of the amounts of the file's lines in the currency. The currency is looked at before the
// file, and the file's faults come before the sum.
pub fn total<S: LayoutSet>(set: &S, bytes: &[u8], currency: &[u8]) -> Result<u64, Refusal>
    ensures { result ≡ total_of (S.meaning set.now) bytes.now currency.now }
{
    sum_lines(set, bytes, currency_of(currency)?)
}
