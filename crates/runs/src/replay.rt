// A list of calls, played on a new draft.
ghost use Rattle.std.specs.Prelude.{◌≡◌};
ghost use Rattle.history.specs.Law.{UsedBytesAreTheLastFile, TheyAreTheWritingOfOneListOfRecords, AmountsAreWhatCameInLessWhatWentOut, UndoLeadsBackThroughEveryFile};
ghost use Rattle.runs.specs.Replays.{Played};

use crate::call::{Call, play};
use changes::change_row::ChangeRow;
use drafts::draft::Draft;
use layouts::set::LayoutSet;

// The draft after all calls, and how many of them were accepted.
#[derive(Drop)]
pub struct Replayed {
    pub draft: Draft,
    pub accepted: usize,
}

// Plays a list of calls on a new draft, over memory of any size and content. The four named promises
// are the law over runs: they hold of every list of calls, also of those that a program makes one by
// one. The first clause says that this is such a run, and that the law holds of it.
pub fn replay<S: LayoutSet>(
    set: &S,
    file: &mut [u8],
    rows: &mut [ChangeRow],
    kept: &mut [u8],
    calls: &[Call<'_>],
) -> Replayed
    ensures plays_the_calls_in_their_order { Played (S.meaning set.now) file.old rows.old kept.old calls.now result.draft file.new rows.new kept.new result.accepted }
    ensures used_bytes_are_the_last_file { UsedBytesAreTheLastFile (S.meaning set.now) }
    ensures they_are_the_writing_of_one_list_of_records { TheyAreTheWritingOfOneListOfRecords (S.meaning set.now) }
    ensures amounts_are_what_came_in_less_what_went_out { AmountsAreWhatCameInLessWhatWentOut (S.meaning set.now) }
    ensures undo_leads_back_through_every_file { UndoLeadsBackThroughEveryFile (S.meaning set.now) }
{
    let mut draft = Draft::new();
    let mut accepted = 0;
    for call in calls {
        if play(&mut draft, set, file, rows, kept, *call).is_ok() {
            accepted += 1;
        }
    }
    Replayed { draft, accepted }
}
