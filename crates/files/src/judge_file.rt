// A file is judged whole: at most 1,200 records, each with CR LF behind it.
ghost use Rattle.std.specs.Prelude.{◌≡◌, ◌+◌, ◌<◌, ◌≤◌, ℕ, List, length, Ok, Err, MatchResult};
ghost use Rattle.lines.specs.Judging.{judged};
ghost use Rattle.basics.specs.declared.refusal.Refusal.{Refusal};
ghost use Rattle.files.specs.Lines.{lines_of, written};
ghost use Rattle.files.specs.Files.{at_line, counted, file_judged, FileOf, FileRefused};

use crate::cut::{count_lines, lines_of};
use basics::refusal::{Layer, Reason, Refusal};
use layouts::set::LayoutSet;
use lines::judge::judge;

// A file has at most so many lines.
const MOST_LINES: usize = 1200;

// The number of lines: the last has to be ended, and they are at most 1,200.
pub(crate) fn whole_lines(bytes: &[u8]) -> Result<usize, Refusal>
    ensures { result ≡ counted bytes.now }
{
    let found = count_lines(bytes);
    if found.end < bytes.len() {
        return Err(Refusal::new(Reason::UnendedLine, Layer::Files).in_line(found.lines + 1));
    }
    if found.lines > MOST_LINES {
        return Err(Refusal::new(Reason::TooManyLines, Layer::Files).in_line(MOST_LINES + 1));
    }
    Ok(found.lines)
}

// The layout of line n, or its first fault as a fault of line n.
pub(crate) fn judge_line<S: LayoutSet>(set: &S, line: &[u8], n: usize) -> Result<usize, Refusal>
    ensures { result ≡ at_line n (judged (S.meaning set.now) line.now) }
{
    judge(set, line).map_err(|e| e.in_line(n))
}

// Refuses with 22 or 23 where so many lines of the bytes are more than a file has: then those behind
// them need not be gone over.
pub(crate) fn few_so_far(bytes: &[u8], count: usize) -> Result<(), Refusal>
    requires { count ≤ length (lines_of bytes.now) }
    ensures { MatchResult result (λ _. count ≤ 1200) (λ e. (1200 < count) × (counted bytes.now ≡ Err e)) }
{
    if count <= MOST_LINES {
        return Ok(());
    }
    whole_lines(bytes).and(Ok(()))
}

// The same of bytes that were gone over: so many lines were cut off, and this rest is left. So a file
// that is accepted is cut only once.
pub(crate) fn walked_lines(bytes: &[u8], count: usize, rest: &[u8]) -> Result<usize, Refusal>
    requires lines { count ≡ length (lines_of bytes.now) }
    requires rest { length rest.now + length (written (lines_of bytes.now)) ≡ length bytes.now }
    ensures { result ≡ counted bytes.now }
{
    if rest.is_empty() && count <= MOST_LINES {
        return Ok(count);
    }
    whole_lines(bytes)
}

// The number of records, or the first fault, by the definition that computes it.
fn judge_lines<S: LayoutSet>(set: &S, bytes: &[u8]) -> Result<usize, Refusal>
    ensures { result ≡ file_judged (S.meaning set.now) bytes.now }
{
    // No `for` over `left.by_ref()`: the proof did not close, since what is left is not known then.
    let mut left = lines_of(bytes);
    let mut count = 0;
    while let Some(line) = left.next() {
        count += 1;
        few_so_far(bytes, count)?;
        if let Err(e) = judge_line(set, line, count) {
            // 22 and 23 come before the faults of lines.
            whole_lines(bytes)?;
            return Err(e);
        }
    }
    walked_lines(bytes, count, left.rest())
}

// The number of records of the file, or its first fault.
pub fn judge_file<S: LayoutSet>(set: &S, bytes: &[u8]) -> Result<usize, Refusal>
    ensures answer_is_the_first_fault { result ≡ file_judged (S.meaning set.now) bytes.now }
    ensures accepted_only_if_it_is_records_with_line_ends { (n : ℕ) → result ≡ Ok n → (records : List (List ℕ)) × (FileOf (S.meaning set.now) bytes.now records × (length records ≡ n)) }
    ensures accepted_if_it_is_records_with_line_ends { (records : List (List ℕ)) → FileOf (S.meaning set.now) bytes.now records → result ≡ Ok (length records) }
    ensures no_other_records_have_this_writing { (records others : List (List ℕ)) → FileOf (S.meaning set.now) bytes.now records → FileOf (S.meaning set.now) bytes.now others → records ≡ others }
    ensures refused_exactly_as_the_rules_say { (e : Refusal) → (result ≡ Err e → FileRefused (S.meaning set.now) bytes.now e) × (FileRefused (S.meaning set.now) bytes.now e → result ≡ Err e) }
{
    judge_lines(set, bytes)
}
