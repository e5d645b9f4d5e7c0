// Two lines as records.
ghost use Rattle.std.specs.Prelude.{◌≡◌, IfOk, Ok, Decides};
ghost use Rattle.std.specs.Str.{bytes_eq};
ghost use Rattle.lines.specs.Judging.{and_then, judged};
ghost use Rattle.values.specs.Records.{SameRecord};

use basics::refusal::Refusal;
use layouts::set::LayoutSet;
use lines::judge::judge;

// Whether two lines are the same record of the set; the fault of the first or else of the other
// comes first. Records are equal if the digits of their layouts and their values are, and the
// lines are then the same, so their bytes are compared.
pub fn same_record<S: LayoutSet>(set: &S, line: &[u8], other: &[u8]) -> Result<bool, Refusal>
    ensures answer { result ≡ and_then (judged (S.meaning set.now) line.now) (λ _. and_then (judged (S.meaning set.now) other.now) (λ _. Ok (bytes_eq line.now other.now))) }
    ensures equal_digits_and_values { IfOk result (λ b. Decides b (SameRecord (S.meaning set.now) line.now other.now)) }
    ensures equal_values_mean_equal_lines { IfOk result (λ b. Decides b (line.now ≡ other.now)) }
{
    judge(set, line)?;
    judge(set, other)?;
    Ok(line == other)
}
