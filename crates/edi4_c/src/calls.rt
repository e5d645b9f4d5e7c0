// The calls, each by its name in C.
ghost use Rattle.std.specs.Prelude.{◌≡◌, ℕ, Ok};
ghost use Rattle.layouts.specs.Tables.{built_in};
ghost use Rattle.lines.specs.Judging.{judged};
ghost use Rattle.files.specs.Files.{file_judged};
ghost use Rattle.files.specs.Totals.{total_of};
ghost use Rattle.reports.specs.Reports.{report_of, answer_of, room_after};
ghost use Rattle.edi4_c.specs.Answers.{told, ZeroMeansAccepted};

use crate::answer::Edi4Answer;
use files::judge_file::judge_file;
use files::total::total;
use layouts::built_in::BuiltIn;
use lines::judge::judge;
use reports::report::report;

// The number of the layout that the line belongs to, or its first fault.
#[unsafe(no_mangle)]
pub extern "C" fn edi4_judge_line(line: &[u8]) -> Edi4Answer
    ensures answer { result ≡ told (judged built_in line.now) }
    ensures number_is_0_exactly_when_accepted { ZeroMeansAccepted (judged built_in line.now) result }
{
    judge(&BuiltIn, line).into()
}

// The number of records of the file, or its first fault.
#[unsafe(no_mangle)]
pub extern "C" fn edi4_judge_file(bytes: &[u8]) -> Edi4Answer
    ensures answer { result ≡ told (file_judged built_in bytes.now) }
    ensures number_is_0_exactly_when_accepted { ZeroMeansAccepted (file_judged built_in bytes.now) result }
{
    judge_file(&BuiltIn, bytes).into()
}

// The sum of the amounts of the file's lines in the currency, in hundredths.
#[unsafe(no_mangle)]
pub extern "C" fn edi4_total(bytes: &[u8], currency: &[u8]) -> Edi4Answer
    ensures answer { result ≡ told (total_of built_in bytes.now currency.now) }
    ensures number_is_0_exactly_when_accepted { ZeroMeansAccepted (total_of built_in bytes.now currency.now) result }
{
    total(&BuiltIn, bytes, currency).into()
}

// Writes the report of the bytes to the front of `out`, and answers its length. Where it is refused
// `out` stays as it was.
#[unsafe(no_mangle)]
pub extern "C" fn edi4_report(bytes: &[u8], out: &mut [u8]) -> Edi4Answer
    ensures answer { result ≡ told (answer_of (report_of built_in bytes.now) out.old) }
    ensures written { out.new ≡ room_after (report_of built_in bytes.now) out.old }
    ensures number_is_0_exactly_when_accepted { ZeroMeansAccepted (answer_of (report_of built_in bytes.now) out.old) result }
{
    report(&BuiltIn, bytes, out).into()
}
