// What a change asks of a draft before it alters anything, and the row that it writes.
ghost use Rattle.std.specs.Prelude.{◌≡◌, ◌+◌, ◌<◌, ◌≤◌, [], ◌∷◌, ◌++◌, length, take, OnOk, nat_le};
ghost use Rattle.changes.specs.Kinds.{number_of};
ghost use Rattle.changes.specs.States.{within, contents};
ghost use Rattle.changes.specs.Calls.{required, rooms, row};
ghost use Rattle.drafts.specs.Drafts.{state};

use crate::draft::Draft;
use crate::moves::append;
use crate::refusals::refused;
use basics::refusal::{Reason, Refusal};
use basics::rows;
use changes::change_row::{ChangeKind, ChangeRow};

// A draft has at most so many lines.
const MOST_LINES: usize = 1200;

// 33 where lines at the end would be too many.
pub(crate) fn few(lines: usize, more: usize) -> Result<(), Refusal>
    ensures { result ≡ required (nat_le (lines + more) 1200) 33 }
{
    if more > MOST_LINES || lines > MOST_LINES - more {
        return Err(refused(Reason::DraftTooLong));
    }
    Ok(())
}

impl Draft {
    // 31 where a memory is shorter than its count.
    pub(crate) fn fits(&self, file: &[u8], rows: &[ChangeRow], kept: &[u8]) -> Result<(), Refusal>
        ensures tells { result ≡ required (within (state self.now file.now rows.now kept.now)) 31 }
        ensures fit { OnOk result ((self.now.file ≤ length file.now) × (self.now.rows ≤ length rows.now) × (self.now.kept ≤ length kept.now)) }
    {
        if self.file > file.len() || self.rows > rows.len() || self.kept > kept.len() {
            return Err(refused(Reason::MemoryShorterThanUsed));
        }
        Ok(())
    }

    // 34 where the file would have more bytes than its memory, `base` and `more`; 35 where no row is
    // free, or no room for so many kept bytes more.
    pub(crate) fn room(
        &self,
        file: &[u8],
        rows: &[ChangeRow],
        kept: &[u8],
        base: usize,
        more: usize,
        old: usize,
    ) -> Result<(), Refusal>
        requires { (base ≤ length file.now) × (self.now.rows ≤ length rows.now) × (self.now.kept ≤ length kept.now) }
        ensures tells { result ≡ rooms (contents (state self.now file.now rows.now kept.now)) (base + more) old }
        ensures fit { OnOk result ((base + more ≤ length file.now) × (self.now.rows < length rows.now) × (self.now.kept + old ≤ length kept.now)) }
    {
        if more > file.len() - base {
            return Err(refused(Reason::NoFileRoom));
        }
        if self.rows >= rows.len() || old > kept.len() - self.kept {
            return Err(refused(Reason::NoChangeRoom));
        }
        Ok(())
    }

    // Writes the row of a change and keeps its old line.
    pub(crate) fn note(
        &mut self,
        rows: &mut [ChangeRow],
        kept: &mut [u8],
        kind: ChangeKind,
        line: usize,
        old: &[u8],
    )
        requires { (self.old.rows < length rows.old) × (self.old.kept + length old.now ≤ length kept.old) }
        ensures file { self.new.file ≡ self.old.file }
        ensures counts { (self.new.rows ≡ self.old.rows + 1) × (self.new.kept ≡ self.old.kept + length old.now) }
        ensures rows { take self.new.rows rows.new ≡ take self.old.rows rows.old ++ row (number_of kind) line self.old.file (length old.now) ∷ [] }
        ensures kept { take self.new.kept kept.new ≡ take self.old.kept kept.old ++ old.now }
    {
        let row = ChangeRow {
            kind: kind.number(),
            line,
            before: self.file,
            kept: old.len(),
        };
        // `room` has asked for a free row.
        self.rows = rows::put(rows, self.rows, row).unwrap_or(self.rows);
        self.kept = append(kept, self.kept, old);
    }
}
