// Undo: the last change that stands is taken back, by its row.
ghost use Rattle.std.specs.Prelude.{◌≡◌, ◌≤◌, length, take, MatchResult};
ghost use Rattle.changes.specs.Calls.{undoing};
ghost use Rattle.drafts.specs.Drafts.{Meets};
ghost use Rattle.changes.specs.Backs.{TakenBack, Stuck};

use crate::draft::Draft;
use crate::moves::{insert_line, splice};
use crate::refusals::refused;
use basics::refusal::{Reason, Refusal};
use changes::change_row::{ChangeKind, ChangeRow};
use changes::places::{LinePlace, behind_lines, place_of};

// Memory and its used count are two parameters, as in `moves`.
// Takes a change back from the used file bytes, and answers how many are used then. `old` is the
// line that the change kept.
fn take_back(file: &mut [u8], used: usize, change: ChangeRow, old: &[u8]) -> Result<usize, Refusal>
    requires { used ≤ length file.old }
    ensures { MatchResult result (TakenBack change old.now (take used file.old) file.old file.new) (Stuck change old.now (take used file.old) file.old file.new) }
{
    match ChangeKind::try_from(change.kind) {
        Ok(ChangeKind::AtTheEnd) => {
            if change.before > used {
                return Err(refused(Reason::RowDoesNotFit));
            }
            Ok(change.before)
        }
        Ok(ChangeKind::Replaced) => {
            let Some(place) = place_of(&file[0..used], change.line) else {
                return Err(refused(Reason::RowDoesNotFit));
            };
            let LinePlace { at, size } = place;
            if old.len() > file.len() - (used - size) {
                return Err(refused(Reason::NoFileRoom));
            }
            Ok(splice(file, used, at, size, old))
        }
        Ok(ChangeKind::Struck) => {
            if change.line == 0 {
                return Err(refused(Reason::RowDoesNotFit));
            }
            let Some(at) = behind_lines(&file[0..used], change.line - 1) else {
                return Err(refused(Reason::RowDoesNotFit));
            };
            if old.len() + 2 > file.len() - used {
                return Err(refused(Reason::NoFileRoom));
            }
            Ok(insert_line(file, used, at, old))
        }
        Err(_) => Err(refused(Reason::RowDoesNotFit)),
    }
}

impl Draft {
    // Takes back the last change that stands. Its row and its kept bytes are free then.
    pub fn undo(&mut self, file: &mut [u8], rows: &[ChangeRow], kept: &[u8]) -> Result<(), Refusal>
        ensures { Meets undoing self.old file.old rows.now kept.now self.new file.new rows.now kept.now result }
    {
        self.fits(file, rows, kept)?;
        if self.rows == 0 {
            return Err(refused(Reason::NothingToUndo));
        }
        let row = rows[self.rows - 1];
        if row.kept > self.kept {
            return Err(refused(Reason::RowDoesNotFit));
        }
        let low = self.kept - row.kept;
        self.file = take_back(file, self.file, row, &kept[low..self.kept])?;
        self.rows -= 1;
        self.kept = low;
        Ok(())
    }
}
