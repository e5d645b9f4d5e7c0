// The report of a survey.
ghost use Rattle.std.specs.Prelude.{◌≡◌, ◌≤◌, length};
ghost use Rattle.reports.specs.Reports.{report_of, answer_of, room_after, NumbersFit};

use crate::fault_row::FaultRow;
use crate::survey::survey;
use crate::writing::{put_report, put_text};
use basics::refusal::Refusal;
use layouts::set::LayoutSet;

// Longer bytes are not surveyed.
const MOST_BYTES: usize = 65_536;

// So many bad lines are shown.
const MOST_SHOWN: usize = 100;

// What a row of the fixed memory holds at first: there is to be no heap.
const NO_FAULT: FaultRow = FaultRow {
    line: 0,
    field: 0,
    byte: 0,
    number: 0,
};

// Surveys the bytes and writes the report, and answers its length. It refuses where there is no room
// for all of it, and then writes nothing.
pub fn report<S: LayoutSet>(set: &S, bytes: &[u8], out: &mut [u8]) -> Result<usize, Refusal>
    ensures answer { result ≡ answer_of (report_of (S.meaning set.now) bytes.now) out.old }
    ensures written { out.new ≡ room_after (report_of (S.meaning set.now) bytes.now) out.old }
    ensures short { length (report_of (S.meaning set.now) bytes.now) ≤ 4022 }
    ensures numbers_fit { length bytes.now ≤ 65536 → NumbersFit (S.meaning set.now) bytes.now }
{
    if bytes.len() > MOST_BYTES {
        return put_text(out, b"TOO LONG\n");
    }
    let mut rows = [NO_FAULT; MOST_SHOWN];
    let found = survey(set, bytes, &mut rows);
    let shown = found.bad.min(MOST_SHOWN);
    put_report(out, found, &rows[0..shown])
}
