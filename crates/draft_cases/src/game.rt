// Calls by chance on a draft and on a draft by the rules alone, and what came of them.
use crate::chance::{Chance, Kind, Wish};
use crate::halt::Halt;
use crate::plain::Plain;
use crate::whole_desk::{Desk, Sizes};
use basics::refusal::{Layer, Reason, Refusal};
use files::total::total;
use std::alloc::{AllocError, Global};
use strips::loaded_set::LoadedSet;

// A run: its memory, how many calls, how many of a hundred are undos, and how many lines come in
// before it begins. The wide set has lines of several lengths.
#[derive(Clone, Copy)]
pub struct Plan {
    pub wide: bool,
    pub room: Sizes,
    pub calls: usize,
    pub undos: usize,
    pub lines: usize,
}

// How many calls were made and how often the draft and the list did not agree; which calls were
// accepted, and for which reasons others were refused.
#[derive(Drop)]
pub struct Tally {
    pub calls: usize,
    pub differences: usize,
    pub accepted: Vec<Kind>,
    pub refused: Vec<Reason>,
}

// The draft, the list that it is held to, and what came.
#[derive(Drop)]
pub struct Game<'a> {
    set: &'a LoadedSet,
    desk: Desk,
    plain: Plain,
    chance: Chance,
    pub tally: Tally,
}

// Puts it with those that came before, once.
fn note<T: Copy + PartialEq>(came: &mut Vec<T>, x: T) -> Result<(), AllocError> {
    if !came.contains(&x) {
        came.push(x)?;
    }
    Ok(())
}

impl<'a> Game<'a> {
    fn new(heap: Global, set: &'a LoadedSet, plan: Plan) -> Result<Game<'a>, AllocError> {
        Ok(Game {
            set,
            desk: Desk::new(heap, plan.room)?,
            plain: Plain::new(heap, plan.wide, plan.room),
            chance: Chance::new(heap, plan.wide, plan.undos),
            tally: Tally {
                calls: 0,
                differences: 0,
                accepted: Vec::new(heap),
                refused: Vec::new(heap),
            },
        })
    }

    // Plays the whole plan.
    pub(crate) fn play(
        heap: Global,
        set: &'a LoadedSet,
        plan: Plan,
    ) -> Result<Game<'a>, AllocError> {
        let mut game = Game::new(heap, set, plan)?;
        if plan.lines > 0 {
            let line = b"UBT99900000000000017525DKK\r\n";
            game.make(&Wish {
                kind: Kind::Import,
                n: 0,
                bytes: line.repeat(heap, plan.lines)?,
            })?;
        }
        game.make_many(plan.calls)?;
        Ok(game)
    }
}

impl Game<'_> {
    // Written by hand, as the next: values of two types are compared.
    fn same_total(&self, currency: &[u8], sum: u64) -> bool {
        total(self.set, self.desk.shown(), currency).is_ok_and(|n| n == sum)
    }

    // Whether the rows are those of the changes that stand.
    fn same_rows(&self) -> bool {
        let rows = self.desk.memory.rows.iter();
        rows.zip(&self.plain.before)
            .all(|(row, before)| *row == before.row)
    }

    // Whether the draft has the list's lines, rows, kept bytes and sums.
    fn agree(&mut self) -> Result<bool, AllocError> {
        let written = self.plain.written()?;
        let old_lines = self.plain.old_lines()?;
        let sums = self.plain.sums;
        Ok(
            self.desk.uses(self.plain.before.len(), old_lines.len())
                && self.desk.shown() == written.as_slice()
                && self.desk.memory.kept.starts_with(&old_lines)
                && self.same_rows()
                && self.same_total(b"DKK", sums.dkk)
                && self.same_total(b"EUR", sums.eur),
        )
    }

    // Makes one call on both, and compares. A call that is refused leaves all memory as it was.
    fn make(&mut self, wish: &Wish) -> Result<(), AllocError> {
        let before = self.desk.memory.clone()?;
        let expected = match self.plain.call(wish.call()) {
            Ok(()) => Ok(()),
            Err(Halt::Refused(e)) => Err(e),
            Err(Halt::NoMemory(e)) => return Err(e),
        };
        let answer = self.desk.call(self.set, wish.call());
        match answer {
            Ok(()) => note(&mut self.tally.accepted, wish.kind)?,
            Err(e) => note(&mut self.tally.refused, e.reason)?,
        }
        let unaltered = answer.is_ok() || self.desk.memory == before;
        self.tally.calls = self.tally.calls.saturating_add(1);
        if answer != expected || !unaltered || !self.agree()? {
            self.tally.differences = self.tally.differences.saturating_add(1);
        }
        Ok(())
    }

    // Makes so many calls by chance.
    fn make_many(&mut self, calls: usize) -> Result<(), AllocError> {
        for _ in 0..calls {
            let wish = self.chance.wish(self.plain.lines.len())?;
            self.make(&wish)?;
        }
        Ok(())
    }

    // Whether undo goes back over every change that stands, and no further.
    pub(crate) fn goes_back(&mut self) -> bool {
        let end = self.desk.rewind();
        end.undone == self.plain.before.len()
            && end.refusal == Refusal::new(Reason::NothingToUndo, Layer::Drafts)
            && self.desk.shown().is_empty()
    }
}
