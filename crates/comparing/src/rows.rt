// Two lists of rows.
ghost use Rattle.std.specs.Prelude.{◌≡◌, ℕ, List, IfOk, Some, Decides};
ghost use Rattle.layouts.specs.declared.field.Field.{Field};
ghost use Rattle.layouts.specs.Layouts.{place, digits_of};
ghost use Rattle.values.specs.Records.{ShowsRecord};
ghost use Rattle.comparing.specs.Comparing.{same_for, SameValues};

use crate::fields::same_fields;
use basics::refusal::{Layer, Reason, Refusal};
use layouts::set::LayoutSet;
use lines::judge::find;
use values::row::Values;

// The answer by the definition that computes it.
fn compare<S: LayoutSet>(
    set: &S,
    digits: u32,
    values: &Values<'_>,
    other: &Values<'_>,
) -> Result<bool, Refusal>
    ensures { result ≡ same_for (S.meaning set.now) digits values.now.bytes.now values.now.rows.now other.now.bytes.now other.now.rows.now }
{
    // No layout has the digits.
    let unknown = Refusal::new(Reason::UnknownDigits, Layer::Lines);
    let j = find(set, u64::from(digits)).ok_or(unknown)?;
    Ok(same_fields(set, j, values, other))
}

// Whether two lists of rows, each over its own bytes, are equal under the layout of these digits:
// their numbers and their texts are. What a row does not use is not looked at.
pub fn same_values<S: LayoutSet>(
    set: &S,
    digits: u32,
    values: &Values<'_>,
    other: &Values<'_>,
) -> Result<bool, Refusal>
    ensures answer { result ≡ same_for (S.meaning set.now) digits values.now.bytes.now values.now.rows.now other.now.bytes.now other.now.rows.now }
    ensures equal_numbers_and_texts { IfOk result (λ b. (j : ℕ) (l : List Field) → place (S.meaning set.now) j ≡ Some l → digits_of l ≡ Some digits → Decides b (SameValues l values.now.bytes.now values.now.rows.now other.now.bytes.now other.now.rows.now)) }
    ensures equal_values_mean_equal_lines { IfOk result (λ b. (s t : List ℕ) → ShowsRecord (S.meaning set.now) digits values.now.bytes.now values.now.rows.now s → ShowsRecord (S.meaning set.now) digits other.now.bytes.now other.now.rows.now t → Decides b (s ≡ t)) }
{
    compare(set, digits, values, other)
}
