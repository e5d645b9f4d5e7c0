// The desk of the long runs: a draft with the three memories that are lent to its calls. They are lent
// whole; the desk of the single cases lends parts of them, and is another type for that.
use basics::refusal::{Reason, Refusal};
use changes::change_row::ChangeRow;
use drafts::draft::Draft;
use runs::call::{Call, play};
use runs::rewind::{Rewound, rewind};
use std::alloc::{AllocError, Global};
use strips::loaded_set::LoadedSet;

// What free memory holds at first.
const FREE: ChangeRow = ChangeRow {
    kind: 9,
    line: 9,
    before: 9,
    kept: 9,
};

// How many file bytes, rows and kept bytes a memory has.
#[derive(Clone, Copy)]
pub struct Sizes {
    pub file: usize,
    pub rows: usize,
    pub kept: usize,
}

// The three memories.
#[derive(Clone, PartialEq, Eq, Drop)]
pub struct Memory {
    pub file: Vec<u8>,
    pub rows: Vec<ChangeRow>,
    pub kept: Vec<u8>,
}

#[derive(Drop)]
pub struct Desk {
    pub draft: Draft,
    pub memory: Memory,
}

impl Desk {
    // A new draft over so much memory.
    pub(crate) fn new(heap: Global, room: Sizes) -> Result<Desk, AllocError> {
        let memory = Memory {
            file: vec![in heap; b'.'; room.file]?,
            rows: vec![in heap; FREE; room.rows]?,
            kept: vec![in heap; b'-'; room.kept]?,
        };
        Ok(Desk {
            draft: Draft::new(),
            memory,
        })
    }

    pub(crate) fn call(&mut self, set: &LoadedSet, call: Call<'_>) -> Result<(), Refusal> {
        let Memory { file, rows, kept } = &mut self.memory;
        play(&mut self.draft, set, file, rows, kept, call)
    }

    pub(crate) fn rewind(&mut self) -> Rewound {
        let Memory { file, rows, kept } = &mut self.memory;
        rewind(&mut self.draft, file, rows, kept)
    }

    // The used file bytes.
    pub(crate) fn shown(&self) -> &[u8] {
        self.draft.show(&self.memory.file).unwrap_or(b"no file")
    }

    // Whether so many rows and kept bytes are fewer than what is used: there is no line 0, so this
    // call alters nothing.
    fn is_short(&mut self, rows: usize, kept: usize) -> bool {
        let memory = &mut self.memory;
        let rows = rows.min(memory.rows.len());
        let kept = kept.min(memory.kept.len());
        self.draft
            .strike(
                &mut memory.file,
                &mut memory.rows[..rows],
                &mut memory.kept[..kept],
                0,
            )
            .is_err_and(|e| e.reason == Reason::MemoryShorterThanUsed)
    }

    // Whether exactly so many rows and kept bytes are used. The draft keeps its counts to itself, so
    // it is asked with so many, and with one less of either.
    pub(crate) fn uses(&mut self, rows: usize, kept: usize) -> bool {
        !self.is_short(rows, kept)
            && (rows == 0 || self.is_short(rows - 1, kept))
            && (kept == 0 || self.is_short(rows, kept - 1))
    }
}
