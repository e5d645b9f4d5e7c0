// A draft by the rules alone: a list of lines, and the list before each change that stands.
ghost use Rattle.std.specs.Prelude.{◌≡◌, ◌<◌, IfOk, vec_len};

use crate::halt::Halt;
use crate::rules::{check_delivery, check_line, cut_lines, paid};
use crate::whole_desk::Sizes;
use basics::refusal::Reason;
use changes::change_row::{ChangeKind, ChangeRow};
use runs::call::Call;
use std::alloc::{AllocError, Global};

// What came in less what went out, in each of two currencies.
#[derive(Clone, Copy)]
pub struct Sums {
    pub dkk: u64,
    pub eur: u64,
}

// What stood before a change, the change's row, and the line that it took out.
#[derive(Drop)]
pub struct Before {
    pub lines: Vec<Vec<u8>>,
    pub sums: Sums,
    pub row: ChangeRow,
    pub old: Vec<u8>,
}

#[derive(Drop)]
pub struct Plain {
    pub heap: Global,
    pub wide: bool,
    pub room: Sizes,
    pub lines: Vec<Vec<u8>>,
    pub sums: Sums,
    pub before: Vec<Before>,
}

impl Sums {
    fn came_in(&mut self, line: &[u8]) {
        self.dkk = self.dkk.wrapping_add(paid(line, b"DKK"));
        self.eur = self.eur.wrapping_add(paid(line, b"EUR"));
    }

    fn went_out(&mut self, line: &[u8]) {
        self.dkk = self.dkk.wrapping_sub(paid(line, b"DKK"));
        self.eur = self.eur.wrapping_sub(paid(line, b"EUR"));
    }
}

impl Plain {
    pub(crate) fn new(heap: Global, wide: bool, room: Sizes) -> Plain {
        Plain {
            heap,
            wide,
            room,
            lines: Vec::new(heap),
            sums: Sums { dkk: 0, eur: 0 },
            before: Vec::new(heap),
        }
    }

    // The lines with their line ends.
    pub(crate) fn written(&self) -> Result<Vec<u8>, AllocError> {
        let mut bytes = Vec::new(self.heap);
        for line in &self.lines {
            bytes.extend_from_slice(line)?;
            bytes.extend_from_slice(b"\r\n")?;
        }
        Ok(bytes)
    }

    // The old lines, one after another.
    pub(crate) fn old_lines(&self) -> Result<Vec<u8>, AllocError> {
        let mut bytes = Vec::new(self.heap);
        for before in &self.before {
            bytes.extend_from_slice(&before.old)?;
        }
        Ok(bytes)
    }

    // How many bytes the lines have with their line ends.
    fn bytes(&self) -> usize {
        self.lines.iter().fold(0, |n: usize, line| {
            n.saturating_add(line.len()).saturating_add(2)
        })
    }

    // How many bytes of old lines are kept.
    fn kept(&self) -> usize {
        self.before
            .iter()
            .fold(0, |n: usize, before| n.saturating_add(before.old.len()))
    }

    // Whether there is room for a change after which the file has so many bytes.
    fn check_room(&self, file: usize, old: usize) -> Result<(), Reason> {
        if file > self.room.file {
            return Err(Reason::NoFileRoom);
        }
        if self.before.len() >= self.room.rows || self.kept().saturating_add(old) > self.room.kept {
            return Err(Reason::NoChangeRoom);
        }
        Ok(())
    }

    // Whether so many lines more are not too many.
    fn check_count(&self, more: usize) -> Result<(), Reason> {
        if self.lines.len().saturating_add(more) > 1200 {
            return Err(Reason::DraftTooLong);
        }
        Ok(())
    }

    // Notes what stands now, as what stood before a change.
    fn note(&mut self, kind: ChangeKind, line: usize, old: &[u8]) -> Result<(), AllocError>
        ensures { self.new.lines ≡ self.old.lines }
    {
        let before = Before {
            lines: self.lines.clone()?,
            sums: self.sums,
            row: ChangeRow {
                kind: kind.number(),
                line,
                before: self.bytes(),
                kept: old.len(),
            },
            old: old.to_vec(self.heap)?,
        };
        Ok(self.before.push(before)?)
    }

    fn import(&mut self, delivery: &[u8]) -> Result<(), Halt> {
        let cutting = cut_lines(self.heap, delivery)?;
        check_delivery(self.wide, delivery, &cutting)?;
        self.check_count(cutting.lines.len())?;
        self.check_room(self.bytes().saturating_add(delivery.len()), 0)?;
        self.note(ChangeKind::AtTheEnd, 0, b"")?;
        for line in cutting.lines {
            self.sums.came_in(&line);
            self.lines.push(line)?;
        }
        Ok(())
    }

    fn add(&mut self, line: &[u8]) -> Result<(), Halt> {
        check_line(self.wide, line)?;
        self.check_count(1)?;
        let more = line.len().saturating_add(2);
        self.check_room(self.bytes().saturating_add(more), 0)?;
        self.note(ChangeKind::AtTheEnd, 0, b"")?;
        self.sums.came_in(line);
        self.lines.push(line.to_vec(self.heap)?)?;
        Ok(())
    }

    // The index of line n, if there is such a line. Lines count from 1.
    fn index_of(&self, n: usize) -> Result<usize, Reason>
        ensures { IfOk result (λ i. i < vec_len self.now.lines) }
    {
        if n == 0 || n > self.lines.len() {
            return Err(Reason::NoSuchLine);
        }
        Ok(n - 1)
    }

    fn replace(&mut self, n: usize, line: &[u8]) -> Result<(), Halt> {
        let i = self.index_of(n)?;
        let old = self.lines[i].clone()?;
        check_line(self.wide, line)?;
        let rest = self.bytes().saturating_sub(old.len());
        self.check_room(rest.saturating_add(line.len()), old.len())?;
        self.note(ChangeKind::Replaced, n, &old)?;
        self.lines[i] = line.to_vec(self.heap)?;
        self.sums.went_out(&old);
        self.sums.came_in(line);
        Ok(())
    }

    fn strike(&mut self, n: usize) -> Result<(), Halt> {
        let i = self.index_of(n)?;
        let old = self.lines[i].clone()?;
        let rest = self.bytes().saturating_sub(old.len()).saturating_sub(2);
        self.check_room(rest, old.len())?;
        self.note(ChangeKind::Struck, n, &old)?;
        let _ = self.lines.remove(i);
        self.sums.went_out(&old);
        Ok(())
    }

    // What stood before the last change fitted the memory then, and does now.
    fn undo(&mut self) -> Result<(), Halt> {
        let before = self.before.pop().ok_or(Reason::NothingToUndo)?;
        self.lines = before.lines;
        self.sums = before.sums;
        Ok(())
    }

    // Makes the call, or says why it is to be refused.
    pub(crate) fn call(&mut self, call: Call<'_>) -> Result<(), Halt> {
        match call {
            Call::Import(delivery) => self.import(delivery),
            Call::Add(line) => self.add(line),
            Call::Replace(n, line) => self.replace(n, line),
            Call::Strike(n) => self.strike(n),
            Call::Undo => self.undo(),
        }
    }
}
