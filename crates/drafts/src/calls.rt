// The four changes of a draft. Each asks for all that it needs before it alters anything. They ask in
// one order but of different things: one function for all would take each difference as a parameter.
ghost use Rattle.std.specs.Prelude.{◌≡◌};
ghost use Rattle.changes.specs.Calls.{delivered, importing, adding, replacing, striking};
ghost use Rattle.drafts.specs.Drafts.{Meets};

use crate::draft::Draft;
use crate::moves::{append, splice};
use crate::refusals::refused;
use crate::room::few;
use basics::refusal::{Layer, Reason, Refusal};
use changes::change_row::{ChangeKind, ChangeRow};
use changes::places::{LinePlace, place_of};
use files::cut::count_lines;
use files::judge_file::judge_file;
use layouts::set::LayoutSet;
use lines::judge::judge;

// How many lines a delivery has, or its first fault.
fn delivered_lines<S: LayoutSet>(set: &S, delivery: &[u8]) -> Result<usize, Refusal>
    ensures { result ≡ delivered (S.meaning set.now) delivery.now }
{
    if delivery.is_empty() {
        return Err(Refusal::new(Reason::EmptyFile, Layer::Files));
    }
    judge_file(set, delivery)
}

impl Draft {
    // Puts all lines of a delivery at the end. Faults of the delivery count its own lines.
    pub fn import<S: LayoutSet>(
        &mut self,
        set: &S,
        file: &mut [u8],
        rows: &mut [ChangeRow],
        kept: &mut [u8],
        delivery: &[u8],
    ) -> Result<(), Refusal>
        ensures { Meets (importing (S.meaning set.now) delivery.now) self.old file.old rows.old kept.old self.new file.new rows.new kept.new result }
    {
        self.fits(file, rows, kept)?;
        let more = delivered_lines(set, delivery)?;
        few(count_lines(&file[0..self.file]).lines, more)?;
        self.room(file, rows, kept, self.file, delivery.len(), 0)?;
        self.note(rows, kept, ChangeKind::AtTheEnd, 0, &[]);
        self.file = append(file, self.file, delivery);
        Ok(())
    }

    // Puts one line, given without CR LF, at the end.
    pub fn add<S: LayoutSet>(
        &mut self,
        set: &S,
        file: &mut [u8],
        rows: &mut [ChangeRow],
        kept: &mut [u8],
        line: &[u8],
    ) -> Result<(), Refusal>
        ensures { Meets (adding (S.meaning set.now) line.now) self.old file.old rows.old kept.old self.new file.new rows.new kept.new result }
    {
        self.fits(file, rows, kept)?;
        judge(set, line)?;
        few(count_lines(&file[0..self.file]).lines, 1)?;
        self.room(file, rows, kept, self.file, line.len() + 2, 0)?;
        self.note(rows, kept, ChangeKind::AtTheEnd, 0, &[]);
        let end = append(file, self.file, line);
        self.file = append(file, end, b"\r\n");
        Ok(())
    }

    // Puts a line, given without CR LF, in the place of line n. Lines count from 1.
    pub fn replace<S: LayoutSet>(
        &mut self,
        set: &S,
        file: &mut [u8],
        rows: &mut [ChangeRow],
        kept: &mut [u8],
        n: usize,
        line: &[u8],
    ) -> Result<(), Refusal>
        ensures { Meets (replacing (S.meaning set.now) n line.now) self.old file.old rows.old kept.old self.new file.new rows.new kept.new result }
    {
        self.fits(file, rows, kept)?;
        let Some(place) = place_of(&file[0..self.file], n) else {
            return Err(refused(Reason::NoSuchLine));
        };
        let LinePlace { at, size } = place;
        judge(set, line)?;
        self.room(file, rows, kept, self.file - size, line.len(), size)?;
        self.note(rows, kept, ChangeKind::Replaced, n, &file[at..at + size]);
        self.file = splice(file, self.file, at, size, line);
        Ok(())
    }

    // Takes line n and its CR LF out. Lines count from 1.
    pub fn strike(
        &mut self,
        file: &mut [u8],
        rows: &mut [ChangeRow],
        kept: &mut [u8],
        n: usize,
    ) -> Result<(), Refusal>
        ensures { Meets (striking n) self.old file.old rows.old kept.old self.new file.new rows.new kept.new result }
    {
        self.fits(file, rows, kept)?;
        let Some(place) = place_of(&file[0..self.file], n) else {
            return Err(refused(Reason::NoSuchLine));
        };
        let LinePlace { at, size } = place;
        self.room(file, rows, kept, self.file - (size + 2), 0, size)?;
        self.note(rows, kept, ChangeKind::Struck, n, &file[at..at + size]);
        self.file = splice(file, self.file, at, size + 2, &[]);
        Ok(())
    }
}
