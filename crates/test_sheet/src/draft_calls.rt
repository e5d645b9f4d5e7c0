// A line struck and brought back, and every change undone.
use crate::rules::DKK;
use crate::sheet::Sheet;
use crate::verdict::Verdict;
use edi4::{Call, ChangeRow, Draft, Layer, LoadedSet, Reason, Refusal, play};
use std::io;

pub(crate) const EUR: &[u8] = b"UBT99900000000000020000EUR";

const FREE: ChangeRow = ChangeRow {
    kind: 0,
    line: 0,
    before: 0,
    kept: 0,
};

// A draft with its memory.
#[derive(Drop)]
pub struct Desk {
    pub set: LoadedSet,
    pub draft: Draft,
    pub file: [u8; 84],
    pub rows: [ChangeRow; 4],
    pub kept: [u8; 52],
}

impl Desk {
    // A new draft, for lines of the small set.
    pub(crate) fn new(sheet: &Sheet) -> io::Result<Desk> {
        let mut set = LoadedSet::new(sheet.rt.alloc())?;
        let _ = set.load(b"U99900PV");
        Ok(Desk {
            set,
            draft: Draft::new(),
            file: [0; 84],
            rows: [FREE; 4],
            kept: [0; 52],
        })
    }

    pub(crate) fn call(&mut self, call: Call<'_>) -> Verdict {
        play(
            &mut self.draft,
            &self.set,
            &mut self.file,
            &mut self.rows,
            &mut self.kept,
            call,
        )
        .into()
    }

    // The draft's file.
    pub(crate) fn shown(&self) -> &[u8] {
        self.draft.show(&self.file).unwrap_or(b"no file")
    }
}

pub(crate) fn draft_calls(sheet: &mut Sheet) -> io::Result<()> {
    sheet.heading("A draft")?;
    let mut desk = Desk::new(sheet)?;
    let accepted = Verdict::Accepted(0);
    sheet.row(
        "add the line of 26 bytes",
        accepted,
        desk.call(Call::Add(DKK)),
    )?;
    sheet.row("add one of EUR 200.00", accepted, desk.call(Call::Add(EUR)))?;
    sheet.row("strike 1", accepted, desk.call(Call::Strike(1)))?;
    sheet.row("bytes", 28, desk.shown().len())?;
    sheet.row("undo", accepted, desk.call(Call::Undo))?;
    sheet.row("bytes", 56, desk.shown().len())?;
    sheet.row("undo", accepted, desk.call(Call::Undo))?;
    sheet.row("undo", accepted, desk.call(Call::Undo))?;
    sheet.row("bytes", 0, desk.shown().len())?;
    let nothing = Verdict::Refused(Refusal::new(Reason::NothingToUndo, Layer::Drafts));
    sheet.row("a fourth undo", nothing, desk.call(Call::Undo))
}
