// The draft at 1,200 lines.
use crate::desk::Desk;
use crate::sample::{BAD, DKK, EUR, ONE_LINE, TWO_LINES};
use runs::call::Call;
use std::io;
use strips::loaded_set::LoadedSet;

const NO_MORE: [(&str, Call<'static>); 6] = [
    ("add", Call::Add(DKK)),
    ("import one line", Call::Import(ONE_LINE)),
    ("add a bad line", Call::Add(BAD)),
    ("import nothing", Call::Import(b"")),
    ("strike 1201", Call::Strike(1201)),
    ("replace 1201", Call::Replace(1201, DKK)),
];

const ONE_FOR_ANOTHER: [(&str, Call<'static>); 7] = [
    ("strike 600", Call::Strike(600)),
    ("import two lines", Call::Import(TWO_LINES)),
    ("add", Call::Add(EUR)),
    ("add", Call::Add(EUR)),
    ("replace 1200", Call::Replace(1200, DKK)),
    ("strike 1200", Call::Strike(1200)),
    ("strike 1200", Call::Strike(1200)),
];

// The same line, so many times.
fn import_lines(desk: &mut Desk<'_>, n: usize) -> io::Result<()> {
    let lines = ONE_LINE.repeat(desk.rt.alloc(), n)?;
    print!(desk.rt; "{n} lines, ")?;
    desk.step("import", Call::Import(&lines))
}

// 33 comes before 34 and 35. Steps and not a table: what is lent changes between them.
fn filled_up(desk: &mut Desk<'_>) -> io::Result<()> {
    import_lines(desk, 1201)?;
    desk.step("add", Call::Add(DKK))?;
    import_lines(desk, 1200)?;
    import_lines(desk, 1199)?;
    desk.lend(33600, 2, 80);
    desk.step("add with no room at all", Call::Add(DKK))?;
    desk.step("strike 1 with no row", Call::Strike(1))?;
    desk.lend(33599, 6, 80);
    desk.step("strike 1 with a byte short", Call::Strike(1))?;
    desk.lend(33600, 6, 80);
    desk.step("strike 1", Call::Strike(1))?;
    desk.lend(33599, 6, 80);
    desk.step("add with a byte short", Call::Add(DKK))?;
    desk.lend(33600, 6, 80);
    desk.step("add", Call::Add(DKK))
}

pub(crate) fn at_1200_lines(rt: HostRuntime, set: &LoadedSet) -> io::Result<()> {
    println!(rt; "At 1,200 lines")?;
    let mut desk = Desk::new(rt, set, 33656, 6, 80)?;
    import_lines(&mut desk, 1200)?;
    desk.steps(&NO_MORE)?;
    desk.steps(&ONE_FOR_ANOTHER)?;
    desk.steps(&[("undo", Call::Undo); 6])?;
    filled_up(&mut desk)
}
