// Long runs of calls by chance, each compared with a draft by the rules alone.
use crate::chance::Kind;
use crate::game::{Game, Plan};
use crate::tell::tell_yes;
use crate::whole_desk::Sizes;
use basics::refusal::Reason;
use std::io;
use strips::loaded_set::LoadedSet;

// Whether each of those came.
fn all_came<T: PartialEq>(came: &[T], wanted: &[T]) -> bool {
    wanted.iter().all(|x| came.contains(x))
}

const FIVE: [Kind; 5] = [
    Kind::Import,
    Kind::Add,
    Kind::Replace,
    Kind::Strike,
    Kind::Undo,
];

// How often a call is refused for a reason cannot be known before the run: each only has to come.
fn tell_run(
    rt: HostRuntime,
    set: &LoadedSet,
    plan: Plan,
    what: &str,
    reasons: &[Reason],
) -> io::Result<()> {
    let mut game = Game::play(rt.alloc(), set, plan)?;
    let tally = &game.tally;
    println!(rt; "calls {}, differences {}", tally.calls, tally.differences)?;
    let five = all_came(&tally.accepted, &FIVE);
    tell_yes(rt, "each of the five calls was accepted", five)?;
    tell_yes(rt, what, all_came(&tally.refused, reasons))?;
    tell_yes(rt, "rewind takes every change back", game.goes_back())
}

// Each plan has its whole list of reasons beside the line that is printed of it.
pub(crate) fn one_length(rt: HostRuntime, set: &LoadedSet) -> io::Result<()> {
    println!(rt; "A long run of calls by chance")?;
    let plan = Plan {
        wide: false,
        room: Sizes {
            file: 560,
            rows: 30,
            kept: 390,
        },
        calls: 3000,
        undos: 20,
        lines: 0,
    };
    tell_run(
        rt,
        set,
        plan,
        "each of 11, 12, 13, 17, 18, 21, 22, 32, 34, 35 and 36 came",
        &[
            Reason::LineEndsEarly,
            Reason::UnknownRecord,
            Reason::ForbiddenByte,
            Reason::AmountZero,
            Reason::BytesLeftOver,
            Reason::EmptyFile,
            Reason::UnendedLine,
            Reason::NoSuchLine,
            Reason::NoFileRoom,
            Reason::NoChangeRoom,
            Reason::NothingToUndo,
        ],
    )
}

pub(crate) fn several_lengths(rt: HostRuntime, set: &LoadedSet) -> io::Result<()> {
    println!(rt; "A long run with lines of different lengths")?;
    let plan = Plan {
        wide: true,
        room: Sizes {
            file: 900,
            rows: 30,
            kept: 700,
        },
        calls: 3000,
        undos: 20,
        lines: 0,
    };
    tell_run(
        rt,
        set,
        plan,
        "each of 11, 12, 13, 15, 17, 18, 21, 22, 32, 34, 35 and 36 came",
        &[
            Reason::LineEndsEarly,
            Reason::UnknownRecord,
            Reason::ForbiddenByte,
            Reason::OutOfBounds,
            Reason::AmountZero,
            Reason::BytesLeftOver,
            Reason::EmptyFile,
            Reason::UnendedLine,
            Reason::NoSuchLine,
            Reason::NoFileRoom,
            Reason::NoChangeRoom,
            Reason::NothingToUndo,
        ],
    )
}

pub(crate) fn near_1200_lines(rt: HostRuntime, set: &LoadedSet) -> io::Result<()> {
    println!(rt; "A run near 1,200 lines")?;
    let plan = Plan {
        wide: false,
        room: Sizes {
            file: 34000,
            rows: 400,
            kept: 6000,
        },
        calls: 100,
        undos: 10,
        lines: 1198,
    };
    tell_run(rt, set, plan, "33 came", &[Reason::DraftTooLong])
}
