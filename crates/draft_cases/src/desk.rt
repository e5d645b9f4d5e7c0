// A draft on a desk: the draft with the three memories that are lent to its calls.
use basics::refusal::{Reason, Refusal};
use changes::change_row::ChangeRow;
use drafts::draft::Draft;
use runs::call::{Call, play};
use std::alloc::AllocError;
use strips::loaded_set::LoadedSet;

// What free memory holds at first.
pub(crate) const FREE: ChangeRow = ChangeRow {
    kind: 9,
    line: 9,
    before: 9,
    kept: 9,
};

// How many file bytes, rows and kept bytes: those that are lent, or those that are used.
#[derive(Clone, Copy, PartialEq, Eq)]
pub struct Sizes {
    pub file: usize,
    pub rows: usize,
    pub kept: usize,
}

// Of each memory the first so many bytes or rows are lent to a call.
#[derive(Drop)]
pub struct Desk<'a> {
    pub rt: HostRuntime,
    pub set: &'a LoadedSet,
    pub draft: Draft,
    pub file: Vec<u8>,
    pub rows: Vec<ChangeRow>,
    pub kept: Vec<u8>,
    pub lent: Sizes,
}

// What a desk held, to compare with.
#[derive(PartialEq, Eq, Drop)]
pub struct Photo {
    file: Vec<u8>,
    rows: Vec<ChangeRow>,
    kept: Vec<u8>,
    used: Sizes,
}

// The first n of them, or all.
pub(crate) fn front<T>(all: &mut [T], n: usize) -> &mut [T] {
    let n = n.min(all.len());
    &mut all[..n]
}

// Overwrites one byte or row, as any caller can.
pub(crate) fn overwrite<T: Copy>(memory: &mut [T], i: usize, value: T) {
    if let Some(place) = memory.get_mut(i) {
        *place = value;
    }
}

impl<'a> Desk<'a> {
    // A new draft over so much memory, and all of it is lent.
    pub(crate) fn new(
        rt: HostRuntime,
        set: &'a LoadedSet,
        file: usize,
        rows: usize,
        kept: usize,
    ) -> Result<Desk<'a>, AllocError> {
        let heap = rt.alloc();
        Ok(Desk {
            rt,
            set,
            draft: Draft::new(),
            file: vec![in heap; b'.'; file]?,
            rows: vec![in heap; FREE; rows]?,
            kept: vec![in heap; b'-'; kept]?,
            lent: Sizes { file, rows, kept },
        })
    }
}

impl Desk<'_> {
    // Lends so much from now on.
    pub(crate) fn lend(&mut self, file: usize, rows: usize, kept: usize) {
        self.lent = Sizes { file, rows, kept };
    }

    // Makes the call over the lent memory.
    pub(crate) fn call(&mut self, call: Call<'_>) -> Result<(), Refusal> {
        self.call_over(self.lent, call)
    }

    fn call_over(&mut self, lent: Sizes, call: Call<'_>) -> Result<(), Refusal> {
        play(
            &mut self.draft,
            self.set,
            front(&mut self.file, lent.file),
            front(&mut self.rows, lent.rows),
            front(&mut self.kept, lent.kept),
            call,
        )
    }

    // Whether so much memory is less than what is used: there is no line 0, so this call alters
    // nothing.
    fn is_short(&mut self, lent: Sizes) -> bool {
        self.call_over(lent, Call::Strike(0))
            .is_err_and(|e| e.reason == Reason::MemoryShorterThanUsed)
    }

    // The used file bytes.
    pub(crate) fn shown(&self) -> &[u8] {
        self.draft.show(&self.file).unwrap_or(b"no file")
    }

    // How much is used of each memory. The draft keeps its counts to itself, so they are found by
    // calls that are refused: the fewest rows and the fewest kept bytes that are not too short.
    pub(crate) fn used(&mut self) -> Sizes {
        let all = Sizes {
            file: self.file.len(),
            rows: self.rows.len(),
            kept: self.kept.len(),
        };
        Sizes {
            file: self.shown().len(),
            rows: (0..all.rows)
                .find(|rows| !self.is_short(Sizes { rows: *rows, ..all }))
                .unwrap_or(all.rows),
            kept: (0..all.kept)
                .find(|kept| !self.is_short(Sizes { kept: *kept, ..all }))
                .unwrap_or(all.kept),
        }
    }

    // A copy of all memory, used, free and not lent, and of the counts.
    pub(crate) fn photo(&mut self) -> Result<Photo, AllocError> {
        Ok(Photo {
            file: self.file.clone()?,
            rows: self.rows.clone()?,
            kept: self.kept.clone()?,
            used: self.used(),
        })
    }
}
