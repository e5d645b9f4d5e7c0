// Memory that is shorter than what the draft uses of it.
use crate::desk::{Desk, Sizes};
use crate::sample::{BAD, DKK, ONE_LINE, THREE};
use runs::call::Call;
use std::alloc::AllocError;
use std::io;
use strips::loaded_set::LoadedSet;

// Three lines came in and the second was struck: 56 bytes, 2 rows and 26 kept bytes are used.
pub(crate) fn second_struck(rt: HostRuntime, set: &LoadedSet) -> Result<Desk<'_>, AllocError> {
    let mut desk = Desk::new(rt, set, 140, 6, 80)?;
    let _ = desk.call(Call::Import(THREE));
    let _ = desk.call(Call::Strike(2));
    Ok(desk)
}

const CALLS: [(&str, Call<'static>); 8] = [
    ("import", Call::Import(ONE_LINE)),
    ("import nothing", Call::Import(b"")),
    ("add", Call::Add(DKK)),
    ("add a bad line", Call::Add(BAD)),
    ("replace 1", Call::Replace(1, DKK)),
    ("strike 1", Call::Strike(1)),
    ("strike 3", Call::Strike(3)),
    ("undo", Call::Undo),
];

// Every call with so much memory, on a draft of its own.
fn calls_with(rt: HostRuntime, set: &LoadedSet, lent: Sizes) -> io::Result<()> {
    for (what, call) in CALLS {
        let mut desk = second_struck(rt, set)?;
        desk.lent = lent;
        desk.step(what, call)?;
    }
    Ok(())
}

// Every call on a new draft with no memory at all.
fn calls_with_none(rt: HostRuntime, set: &LoadedSet) -> io::Result<()> {
    for (what, call) in CALLS {
        Desk::new(rt, set, 0, 0, 0)?.step(what, call)?;
    }
    Ok(())
}

fn tell_show(desk: &Desk<'_>, n: usize) -> io::Result<()> {
    let n = n.min(desk.file.len());
    match desk.draft.show(&desk.file[..n]) {
        Ok(bytes) => println!(desk.rt; "show in {n} file bytes: {} bytes", bytes.len()),
        Err(e) => println!(desk.rt; "show in {n} file bytes: {e}"),
    }
}

// How many file bytes, rows and kept bytes are lent: too few of one of them, just enough, and more.
const LENT: [(&str, usize, usize, usize); 5] = [
    ("With 55 of 56 file bytes", 55, 6, 80),
    ("With 1 of 2 rows", 140, 1, 80),
    ("With 25 of 26 kept bytes", 140, 6, 25),
    ("With 56 file bytes, 2 rows and 26 kept bytes", 56, 2, 26),
    ("With all memory", 140, 6, 80),
];

pub(crate) fn short_memory(rt: HostRuntime, set: &LoadedSet) -> io::Result<()> {
    for (what, file, rows, kept) in LENT {
        println!(rt; "{what}")?;
        calls_with(rt, set, Sizes { file, rows, kept })?;
    }
    println!(rt; "A new draft with no memory")?;
    calls_with_none(rt, set)?;
    let desk = second_struck(rt, set)?;
    for n in [0, 55, 56, 140] {
        tell_show(&desk, n)?;
    }
    Ok(())
}
