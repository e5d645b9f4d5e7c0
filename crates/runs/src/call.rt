// The five calls on a draft, as values.
ghost use Rattle.std.specs.Prelude.{◌≡◌};
ghost use Rattle.drafts.specs.Drafts.{Meets};
ghost use Rattle.history.specs.Runs.{called};
ghost use Rattle.runs.specs.Calls.{act_of};

use basics::refusal::Refusal;
use changes::change_row::ChangeRow;
use drafts::draft::Draft;
use layouts::set::LayoutSet;

// One of the five calls with its delivery, its line, its number. An enum, and no closure: a run is a
// list of calls, and the law over runs tells them apart.
#[derive(Clone, Copy)]
pub enum Call<'a> {
    Import(&'a [u8]),
    Add(&'a [u8]),
    Replace(usize, &'a [u8]),
    Strike(usize),
    Undo,
}

// Makes the call.
pub fn play<S: LayoutSet>(
    draft: &mut Draft,
    set: &S,
    file: &mut [u8],
    rows: &mut [ChangeRow],
    kept: &mut [u8],
    call: Call<'_>,
) -> Result<(), Refusal>
    ensures { Meets (called (S.meaning set.now) (act_of call.entry)) draft.old file.old rows.old kept.old draft.new file.new rows.new kept.new result }
{
    match call {
        Call::Import(delivery) => draft.import(set, file, rows, kept, delivery),
        Call::Add(line) => draft.add(set, file, rows, kept, line),
        Call::Replace(n, line) => draft.replace(set, file, rows, kept, n, line),
        Call::Strike(n) => draft.strike(file, rows, kept, n),
        Call::Undo => draft.undo(file, rows, kept),
    }
}
