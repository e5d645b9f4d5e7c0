// Faults of kinds of fields that the small set does not have: a range, a filled text, a day, and a
// block of all or no lines.
use crate::desk::Desk;
use crate::refused::{delivered, each};
use runs::call::Call;
use std::io;
use strips::loaded_set::LoadedSet;

const GOOD: &[u8] = b"UBT9990201000000000017525DKKabc2024022900";

const BAD_LINES: [(&str, &[u8]); 7] = [
    (
        "a range out of bounds",
        b"UBT9990203000000000017525DKKabc2024022900",
    ),
    ("amount 0", b"UBT9990202000000000000000DKKabc2024022900"),
    ("a blank text", b"UBT9990200000000000017525DKK   2024022900"),
    ("no day", b"UBT9990201000000000017525DKKabc2026022900"),
    ("day 0", b"UBT9990201000000000017525DKKabc0000000000"),
    (
        "one line of two",
        b"UBT9990201000000000017525DKKabc2024022901xxxxxxxxxxxxxxxxxxxxxxxxxxxxxxxxxxx",
    ),
    (
        "a blank second line",
        b"UBT9990201000000000017525DKKabc2024022902xxxxxxxxxxxxxxxxxxxxxxxxxxxxxxxxxxx                                   ",
    ),
];

pub(crate) fn kinds(rt: HostRuntime, set: &LoadedSet) -> io::Result<()> {
    println!(rt; "Faults of other kinds")?;
    let mut desk = Desk::new(rt, set, 200, 6, 80)?;
    desk.step("add a good line", Call::Add(GOOD))?;
    each(&mut desk, "add", &BAD_LINES, Call::Add)?;
    each(
        &mut desk,
        "replace 1 by",
        &BAD_LINES,
        |line| Call::Replace(1, line),
    )?;
    delivered(&mut desk, &BAD_LINES)?;
    desk.step_with_file("undo", Call::Undo)
}
