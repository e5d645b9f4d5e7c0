// Used file bytes that the caller has overwritten, so that an unended rest stands behind the last
// CR LF.
use crate::desk::{Desk, overwrite};
use crate::sample::{DKK, EUR, ONE_LINE, THREE};
use changes::change_row::{ChangeKind, ChangeRow};
use runs::call::Call;
use std::io;
use strips::loaded_set::LoadedSet;

const STRUCK_AND_REPLACED: [(&str, Call<'static>); 8] = [
    ("strike 3", Call::Strike(3)),
    ("strike 1", Call::Strike(1)),
    ("undo", Call::Undo),
    ("strike 2", Call::Strike(2)),
    ("undo", Call::Undo),
    ("replace 1", Call::Replace(1, DKK)),
    ("undo", Call::Undo),
    ("replace 3", Call::Replace(3, DKK)),
];

// What is put at the end stands behind the rest, and the two become one line.
const ADDED_BEHIND: [(&str, Call<'static>); 2] = [
    ("add", Call::Add(DKK)),
    ("strike 3", Call::Strike(3)),
];

const IMPORTED_BEHIND: [(&str, Call<'static>); 6] = [
    ("undo", Call::Undo),
    ("undo", Call::Undo),
    ("import", Call::Import(ONE_LINE)),
    ("replace 3", Call::Replace(3, EUR)),
    ("undo", Call::Undo),
    ("undo", Call::Undo),
];

// A line that comes back behind all lines still stands before the rest.
fn before_the_rest(desk: &mut Desk<'_>) -> io::Result<()> {
    desk.step_with_file("strike 1", Call::Strike(1))?;
    let row = ChangeRow {
        kind: ChangeKind::Struck.number(),
        line: 2,
        before: 84,
        kept: 26,
    };
    overwrite(&mut desk.rows, 1, row);
    desk.step_with_file("undo at n 2", Call::Undo)
}

const WITH_A_REST_ALONE: [(&str, Call<'static>); 4] = [
    ("strike 1", Call::Strike(1)),
    ("replace 1", Call::Replace(1, EUR)),
    ("add", Call::Add(EUR)),
    ("strike 1", Call::Strike(1)),
];

// No line at all. The last used byte is CR, and the first free one LF: that ends no line.
fn rest_alone(rt: HostRuntime, set: &LoadedSet) -> io::Result<()> {
    let mut desk = Desk::new(rt, set, 140, 6, 120)?;
    let _ = desk.call(Call::Add(DKK));
    overwrite(&mut desk.file, 26, b'x');
    overwrite(&mut desk.file, 27, b'\r');
    overwrite(&mut desk.file, 28, b'\n');
    desk.tell_file()?;
    desk.steps_with_file(&WITH_A_REST_ALONE)?;
    desk.tell_kept()?;
    desk.steps_with_file(&[("undo", Call::Undo); 2])
}

pub(crate) fn with_a_rest(rt: HostRuntime, set: &LoadedSet) -> io::Result<()> {
    println!(rt; "With an unended rest")?;
    let mut desk = Desk::new(rt, set, 140, 6, 120)?;
    let _ = desk.call(Call::Import(THREE));
    overwrite(&mut desk.file, 82, b'x');
    overwrite(&mut desk.file, 83, b'y');
    desk.tell_file()?;
    desk.steps_with_file(&STRUCK_AND_REPLACED)?;
    desk.steps_with_file(&ADDED_BEHIND)?;
    desk.tell_kept()?;
    desk.steps_with_file(&IMPORTED_BEHIND)?;
    before_the_rest(&mut desk)?;
    println!(rt; "With a rest alone")?;
    rest_alone(rt, set)
}
