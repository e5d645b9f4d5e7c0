// Rows and kept bytes that the caller has overwritten.
use crate::desk::{front, overwrite};
use crate::short_memory::second_struck;
use changes::change_row::ChangeRow;
use runs::call::Call;
use std::io;
use strips::loaded_set::LoadedSet;

// A name, how many file bytes are lent, and a row: its kind, its line, the bytes before it and the
// bytes that it kept.
type Case = (&'static str, usize, (u8, usize, usize, usize));

const MOST: usize = usize::MAX;

const REFUSED_ROWS: [Case; 15] = [
    ("kind 0", 140, (0, 2, 84, 26)),
    ("kind 4", 140, (4, 2, 84, 26)),
    ("kind 255", 140, (255, 2, 84, 26)),
    ("kind 1, before 57", 140, (1, 0, 57, 0)),
    ("kind 1, before most", 140, (1, 0, MOST, 0)),
    ("kind 2, n 0", 140, (2, 0, 84, 26)),
    ("kind 2, n 3", 140, (2, 3, 84, 26)),
    ("kind 2, n most", 140, (2, MOST, 84, 26)),
    ("kind 3, n 0", 140, (3, 0, 84, 26)),
    ("kind 3, n 4", 140, (3, 4, 84, 26)),
    ("kind 3, n most", 140, (3, MOST, 84, 26)),
    ("kind 1, kept 27", 140, (1, 0, 28, 27)),
    ("kind 2, kept 27", 140, (2, 2, 84, 27)),
    ("kind 3, kept 27", 140, (3, 2, 84, 27)),
    ("kind 3, kept most", 140, (3, 2, 84, MOST)),
];

// These rows fit, though no change of the draft wrote them.
const ACCEPTED_ROWS: [Case; 9] = [
    ("kind 1, before 56", 140, (1, 0, 56, 0)),
    ("kind 1, before 27", 140, (1, 7, 27, 26)),
    ("kind 1, before 0", 140, (1, 0, 0, 5)),
    ("kind 2, n 2", 140, (2, 2, 0, 26)),
    ("kind 2, kept 0", 140, (2, 1, 84, 0)),
    ("kind 3, n 3", 140, (3, 3, 84, 26)),
    ("kind 3, n 1", 140, (3, 1, 0, 26)),
    ("kind 3, kept 25", 140, (3, 2, 84, 25)),
    ("kind 3, kept 0", 140, (3, 2, 84, 0)),
];

// The file memory has just no room for what comes back. A row that does not fit comes first.
const LITTLE_ROOM: [Case; 8] = [
    ("in 83 bytes", 83, (3, 2, 84, 26)),
    ("in 84 bytes", 84, (3, 2, 84, 26)),
    ("kept 0 in 57 bytes", 57, (3, 2, 84, 0)),
    ("kept 0 in 58 bytes", 58, (3, 2, 84, 0)),
    ("kind 2 in 56 bytes", 56, (2, 2, 84, 26)),
    ("kind 4 in 56 bytes", 56, (4, 2, 84, 26)),
    ("n 4 in 56 bytes", 56, (3, 4, 84, 26)),
    ("kept 27 in 56 bytes", 56, (3, 2, 84, 27)),
];

// Undo by such rows, where 56 bytes in 2 lines, 2 rows and 26 kept bytes are used.
fn undo_by(rt: HostRuntime, set: &LoadedSet, cases: &[Case]) -> io::Result<()> {
    for (what, lent, (kind, line, before, kept)) in cases {
        let mut desk = second_struck(rt, set)?;
        let row = ChangeRow {
            kind: *kind,
            line: *line,
            before: *before,
            kept: *kept,
        };
        overwrite(&mut desk.rows, 1, row);
        desk.lent.file = *lent;
        desk.step_with_file(what, Call::Undo)?;
    }
    Ok(())
}

// Undo brings back the kept bytes that are there.
fn kept_bytes(rt: HostRuntime, set: &LoadedSet) -> io::Result<()> {
    let mut desk = second_struck(rt, set)?;
    front(&mut desk.kept, 26).fill(b'z');
    desk.step_with_file("undo with other kept bytes", Call::Undo)?;
    let mut desk = second_struck(rt, set)?;
    overwrite(&mut desk.kept, 10, b'\r');
    overwrite(&mut desk.kept, 11, b'\n');
    desk.steps_with_file(&[
        ("undo with CR LF in them", Call::Undo),
        ("strike 3", Call::Strike(3)),
        ("undo", Call::Undo),
    ])
}

pub(crate) fn foreign_rows(rt: HostRuntime, set: &LoadedSet) -> io::Result<()> {
    println!(rt; "Undo by rows that do not fit")?;
    undo_by(rt, set, &REFUSED_ROWS)?;
    println!(rt; "Undo by other rows that fit")?;
    undo_by(rt, set, &ACCEPTED_ROWS)?;
    println!(rt; "Undo with little room")?;
    undo_by(rt, set, &LITTLE_ROOM)?;
    println!(rt; "Undo with kept bytes overwritten")?;
    kept_bytes(rt, set)
}
