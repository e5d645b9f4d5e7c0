// Lists of calls, and undo as often as it is accepted.
use crate::desk::{Desk, FREE, front, overwrite};
use crate::sample::{A, BAD, DKK, EUR, ONE_LINE, THREE};
use crate::tell::tell_yes;
use runs::call::Call;
use runs::replay::{Replayed, replay};
use runs::rewind::rewind;
use std::io;
use strips::loaded_set::LoadedSet;

const CALLS: [Call<'static>; 18] = [
    Call::Import(THREE),
    Call::Add(DKK),
    Call::Add(EUR),
    Call::Strike(2),
    Call::Replace(1, EUR),
    Call::Strike(1),
    Call::Undo,
    Call::Strike(9),
    Call::Add(BAD),
    Call::Import(b""),
    Call::Undo,
    Call::Undo,
    Call::Undo,
    Call::Undo,
    Call::Add(EUR),
    Call::Import(ONE_LINE),
    Call::Replace(2, A),
    Call::Strike(1),
];

impl Desk<'_> {
    // Replays the calls over all memory, and answers how many were accepted.
    fn replay(&mut self, calls: &[Call<'_>]) -> usize {
        let Replayed { draft, accepted } = replay(
            self.set,
            &mut self.file,
            &mut self.rows,
            &mut self.kept,
            calls,
        );
        self.draft = draft;
        accepted
    }
}

fn played<'a>(rt: HostRuntime, set: &'a LoadedSet, calls: &[Call<'_>]) -> io::Result<Desk<'a>> {
    let mut desk = Desk::new(rt, set, 112, 4, 60)?;
    let accepted = desk.replay(calls);
    println!(rt; "replay: accepted {accepted} of {}", calls.len())?;
    desk.tell_file()?;
    Ok(desk)
}

// Rewinds in so many file bytes.
fn rewound(desk: &mut Desk<'_>, file: usize) -> io::Result<()> {
    let end = rewind(
        &mut desk.draft,
        front(&mut desk.file, file),
        &desk.rows,
        &desk.kept,
    );
    println!(desk.rt; "rewind: undone {}, then {}", end.undone, end.refusal)?;
    desk.tell_file()
}

// The calls one by one, against the desk on which they were played.
fn compared(desk: &mut Desk<'_>) -> io::Result<()> {
    let mut other = Desk::new(desk.rt, desk.set, 112, 4, 60)?;
    let accepted = CALLS
        .into_iter()
        .filter(|call| other.call(*call).is_ok())
        .count();
    println!(desk.rt; "one by one: accepted {accepted} of 18")?;
    other.tell_file()?;
    let same = desk.photo()? == other.photo()?;
    tell_yes(desk.rt, "  the same memory and counts", same)
}

pub(crate) fn lists_of_calls(rt: HostRuntime, set: &LoadedSet) -> io::Result<()> {
    println!(rt; "Lists of calls")?;
    let mut desk = played(rt, set, &CALLS)?;
    compared(&mut desk)?;
    rewound(&mut desk, 112)?;
    println!(rt; "With too little file memory to undo")?;
    let mut desk = played(rt, set, &CALLS)?;
    rewound(&mut desk, 55)?;
    rewound(&mut desk, 27)?;
    rewound(&mut desk, 56)?;
    println!(rt; "With a row overwritten")?;
    let mut desk = played(rt, set, &CALLS)?;
    overwrite(&mut desk.rows, 1, FREE);
    rewound(&mut desk, 112)?;
    println!(rt; "With no calls")?;
    let mut desk = played(rt, set, &[])?;
    rewound(&mut desk, 112)
}
