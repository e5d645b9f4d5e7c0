// A survey goes over all lines and goes on after a bad one.
ghost use Rattle.std.specs.Prelude.{◌≡◌, ◌+◌, ◌^◌, ◌<◌, length, set};
ghost use Rattle.lines.specs.Judging.{judged};
ghost use Rattle.reports.specs.Surveys.{fault_of, faults_of, lines_in, laid, laid_over};

use crate::fault_row::{FaultRow, Survey as Found};
use basics::refusal::Reason;
use basics::rows;
use files::cut::lines_of;
use layouts::set::LayoutSet;
use lines::judge::judge;

// Puts the row at its place, if there is such a place. This is no stack with its count: bad lines are
// counted on when the rows have run out.
fn note(rows: &mut [FaultRow], place: usize, row: FaultRow)
    ensures { rows.new ≡ set rows.old place row }
{
    let _ = rows::put(rows, place, row);
}

// The parameters are the loop's own state, which no other call is handed.
// Judges line n, puts its fault behind the bad ones so far, and answers how many are bad then.
fn note_line<S: LayoutSet>(
    set: &S,
    line: &[u8],
    n: usize,
    rows: &mut [FaultRow],
    bad: usize,
) -> usize
    requires { bad + 1 < 2 ^ 64 }
    ensures count { result ≡ bad + length (fault_of n (judged (S.meaning set.now) line.now)) }
    ensures rows { rows.new ≡ laid rows.old bad (fault_of n (judged (S.meaning set.now) line.now)) }
{
    if let Err(fault) = judge(set, line) {
        let row = FaultRow {
            line: n,
            field: fault.field,
            byte: fault.byte,
            number: fault.reason.number(),
        };
        note(rows, bad, row);
        return bad + 1;
    }
    bad
}

// Counts the lines and the bad ones, and puts the first fault of each bad line into the rows while
// they last. Bytes behind the last CR LF are one more line, a bad one.
pub fn survey<S: LayoutSet>(set: &S, bytes: &[u8], rows: &mut [FaultRow]) -> Found
    ensures lines { result.lines ≡ lines_in bytes.now }
    ensures bad { result.bad ≡ length (faults_of (S.meaning set.now) bytes.now) }
    ensures rows { rows.new ≡ laid_over rows.old (faults_of (S.meaning set.now) bytes.now) }
{
    // No `for` over `left.by_ref()`: the proof did not close, since what is left is not known then.
    let mut left = lines_of(bytes);
    let mut lines = 0;
    let mut bad = 0;
    while let Some(line) = left.next() {
        lines += 1;
        bad = note_line(set, line, lines, rows, bad);
    }
    if !left.rest().is_empty() {
        lines += 1;
        let row = FaultRow {
            line: lines,
            field: 0,
            byte: 0,
            number: Reason::UnendedLine.number(),
        };
        note(rows, bad, row);
        bad += 1;
    }
    Found { lines, bad }
}
