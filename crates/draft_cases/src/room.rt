// Room that is short by one, and room that is exactly enough.
use crate::desk::{Desk, Sizes};
use crate::sample::{DKK, EUR, ONE_LINE, TWO_LINES};
use runs::call::Call;
use std::io;
use strips::loaded_set::LoadedSet;

// How much of one memory, and the call over it.
type Case = (usize, &'static str, Call<'static>);

const TWO: Call<'static> = Call::Import(TWO_LINES);

const FILE_ROOM: [Case; 10] = [
    (27, "add", Call::Add(DKK)),
    (28, "add", Call::Add(DKK)),
    (28, "replace 1", Call::Replace(1, EUR)),
    (55, "add", Call::Add(EUR)),
    (56, "add", Call::Add(EUR)),
    (111, "import two lines", TWO),
    (112, "import two lines", TWO),
    (112, "strike 4", Call::Strike(4)),
    (111, "undo", Call::Undo),
    (112, "undo", Call::Undo),
];

const ROW_ROOM: [Case; 11] = [
    (0, "add", Call::Add(DKK)),
    (1, "add", Call::Add(DKK)),
    (1, "import one line", Call::Import(ONE_LINE)),
    (2, "import one line", Call::Import(ONE_LINE)),
    (2, "replace 1", Call::Replace(1, EUR)),
    (3, "replace 1", Call::Replace(1, EUR)),
    (3, "strike 1", Call::Strike(1)),
    (4, "strike 1", Call::Strike(1)),
    (4, "undo", Call::Undo),
    (4, "add", Call::Add(DKK)),
    (4, "add", Call::Add(DKK)),
];

const KEPT_ROOM: [Case; 11] = [
    (0, "import two lines", TWO),
    (25, "strike 2", Call::Strike(2)),
    (26, "strike 2", Call::Strike(2)),
    (51, "replace 1", Call::Replace(1, EUR)),
    (52, "replace 1", Call::Replace(1, EUR)),
    (52, "add", Call::Add(DKK)),
    (52, "strike 2", Call::Strike(2)),
    (52, "undo", Call::Undo),
    (51, "undo", Call::Undo),
    (52, "undo", Call::Undo),
    (52, "strike 1", Call::Strike(1)),
];

// What a desk has in all.
const ALL: Sizes = Sizes {
    file: 140,
    rows: 6,
    kept: 80,
};

// The calls of a new draft, where `lend` says what is lent with so much of one memory.
fn calls_over<F: Fn(usize) -> Sizes>(
    rt: HostRuntime,
    set: &LoadedSet,
    cases: &[Case],
    inside: &str,
    memory: &str,
    lend: F,
) -> io::Result<()>
    requires { F.IsAlwaysCallable lend }
{
    let mut desk = Desk::new(rt, set, ALL.file, ALL.rows, ALL.kept)?;
    for (n, what, call) in cases {
        desk.lent = lend(*n);
        print!(rt; "{inside} {n} {memory}, ")?;
        desk.step(what, *call)?;
    }
    Ok(())
}

pub(crate) fn short_by_one(rt: HostRuntime, set: &LoadedSet) -> io::Result<()> {
    println!(rt; "Room for file bytes")?;
    calls_over(
        rt,
        set,
        &FILE_ROOM,
        "in",
        "file bytes",
        |file| Sizes { file, ..ALL },
    )?;
    let mut desk = Desk::new(rt, set, 27, 0, 0)?;
    desk.step("add with no room at all", Call::Add(DKK))?;
    println!(rt; "Room for rows")?;
    calls_over(
        rt,
        set,
        &ROW_ROOM,
        "with",
        "rows",
        |rows| Sizes { rows, ..ALL },
    )?;
    println!(rt; "Room for kept bytes")?;
    calls_over(
        rt,
        set,
        &KEPT_ROOM,
        "with",
        "kept bytes",
        |kept| Sizes { kept, ..ALL },
    )
}
