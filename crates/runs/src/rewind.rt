// Undo, called as often as it is accepted.
ghost use Rattle.std.specs.Prelude.{◌≡◌};
ghost use Rattle.drafts.specs.Drafts.{state};
ghost use Rattle.history.specs.Law.{UndoneUntil, UndoesEveryStandingChange};

use basics::refusal::Refusal;
use changes::change_row::ChangeRow;
use drafts::draft::Draft;

// How many undos were accepted, and the refusal of the one after them.
#[derive(Clone, Copy)]
pub struct Rewound {
    pub undone: usize,
    pub refusal: Refusal,
}

// Undoes change after change until an undo is refused. After a run from a new draft that is once for
// each change that stands: each leaves the file before its change, the last one no bytes, and then
// 36 comes.
pub fn rewind(draft: &mut Draft, file: &mut [u8], rows: &[ChangeRow], kept: &[u8]) -> Rewound
    ensures undoes_until_it_is_refused { UndoneUntil (state draft.old file.old rows.now kept.now) result.undone (state draft.new file.new rows.now kept.now) result.refusal }
    ensures undoes_every_standing_change { UndoesEveryStandingChange (state draft.old file.old rows.now kept.now) result.undone (state draft.new file.new rows.now kept.now) result.refusal }
{
    // No `while`: the refusal that ends it is part of the answer.
    let mut undone = 0;
    loop {
        match draft.undo(file, rows, kept) {
            Ok(()) => undone += 1,
            Err(refusal) => return Rewound { undone, refusal },
        }
    }
}
