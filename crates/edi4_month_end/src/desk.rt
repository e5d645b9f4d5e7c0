// The clerk's desk: a draft, and the three memories that are lent to it.
use basics::refusal::Refusal;
use changes::change_row::ChangeRow;
use drafts::draft::Draft;
use layouts::built_in::BuiltIn;
use std::alloc::{AllocError, Global};

// How much memory the desk lends.
pub(crate) const FILE_BYTES: usize = 8192;

pub(crate) const CHANGES: usize = 16;

pub(crate) const KEPT_BYTES: usize = 4096;

// What a row of the fixed memory holds at first.
const NO_CHANGE: ChangeRow = ChangeRow {
    kind: 0,
    line: 0,
    before: 0,
    kept: 0,
};

#[derive(Drop)]
pub(crate) struct Desk {
    pub(crate) draft: Draft,
    pub(crate) file: Vec<u8>,
    pub(crate) rows: Vec<ChangeRow>,
    pub(crate) kept: Vec<u8>,
}

impl Desk {
    pub(crate) fn new(heap: Global) -> Result<Desk, AllocError> {
        Ok(Desk {
            draft: Draft::new(),
            file: vec![in heap; 0; FILE_BYTES]?,
            rows: vec![in heap; NO_CHANGE; CHANGES]?,
            kept: vec![in heap; 0; KEPT_BYTES]?,
        })
    }

    // The bytes of the draft's file.
    pub(crate) fn show(&self) -> Result<&[u8], Refusal> {
        self.draft.show(&self.file)
    }

    // Each call has a method of its own: so the steps read as a clerk's.
    pub(crate) fn import(&mut self, delivery: &[u8]) -> Result<(), Refusal> {
        self.draft.import(
            &BuiltIn,
            &mut self.file,
            &mut self.rows,
            &mut self.kept,
            delivery,
        )
    }

    pub(crate) fn add(&mut self, line: &[u8]) -> Result<(), Refusal> {
        self.draft.add(
            &BuiltIn,
            &mut self.file,
            &mut self.rows,
            &mut self.kept,
            line,
        )
    }

    pub(crate) fn replace(&mut self, n: usize, line: &[u8]) -> Result<(), Refusal> {
        self.draft.replace(
            &BuiltIn,
            &mut self.file,
            &mut self.rows,
            &mut self.kept,
            n,
            line,
        )
    }

    pub(crate) fn strike(&mut self, n: usize) -> Result<(), Refusal> {
        self.draft
            .strike(&mut self.file, &mut self.rows, &mut self.kept, n)
    }

    pub(crate) fn undo(&mut self) -> Result<(), Refusal> {
        self.draft.undo(&mut self.file, &self.rows, &self.kept)
    }
}
