// Lines of different lengths: a second layout has a block of at most two lines.
use crate::desk::Desk;
use crate::sample::{A, DKK, EUR};
use runs::call::Call;
use std::io;
use strips::loaded_set::LoadedSet;

// 28, 63 and 98 bytes.
const NONE: &[u8] = b"UBT99901000000000000500DKK00";

const ONE: &[u8] = b"UBT99901000000000000300EUR01xxxxxxxxxxxxxxxxxxxxxxxxxxxxxxxxxxx";

const TWO: &[u8] =
    b"UBT99901000000000000400USD02yyyyyyyyyyyyyyyyyyyyyyyyyyyyyyyyyyyzzzzzzzzzzzzzzzzzzzzzzzzzzzzzzzzzzz";

// Changes by a longer or a shorter line, and each undone.
const THERE_AND_BACK: [(&str, Call<'static>); 8] = [
    ("replace 2", Call::Replace(2, DKK)),
    ("undo", Call::Undo),
    ("replace 1", Call::Replace(1, TWO)),
    ("undo", Call::Undo),
    ("replace 3", Call::Replace(3, NONE)),
    ("undo", Call::Undo),
    ("strike 2", Call::Strike(2)),
    ("undo", Call::Undo),
];

fn several(desk: &mut Desk<'_>) -> io::Result<()> {
    desk.step("replace 2", Call::Replace(2, TWO))?;
    desk.step("strike 1", Call::Strike(1))?;
    desk.step("replace 1", Call::Replace(1, DKK))?;
    desk.tell_file()?;
    desk.tell_rows()?;
    desk.tell_kept()?;
    desk.step("strike 2 with no row", Call::Strike(2))?;
    desk.steps_with_file(&[("undo", Call::Undo); 3])
}

// Room short by one for a line that is longer than the one it replaces. Steps and not a table, here
// and below: what is lent changes between them.
fn longer(desk: &mut Desk<'_>) -> io::Result<()> {
    let call = Call::Replace(1, TWO);
    desk.lend(192, 3, 200);
    desk.step("in 192 bytes with no row, replace 1", call)?;
    desk.lend(192, 6, 200);
    desk.step("in 192 bytes, replace 1", call)?;
    desk.lend(193, 3, 200);
    desk.step("in 193 bytes with no row, replace 1", call)?;
    desk.lend(193, 6, 200);
    desk.step("in 193 bytes, replace 1", call)?;
    desk.step("undo", Call::Undo)
}

// Room short by one for the old line, and for the old line when it comes back.
fn shorter(desk: &mut Desk<'_>) -> io::Result<()> {
    let call = Call::Replace(2, DKK);
    desk.lend(200, 6, 62);
    desk.step("with 62 kept bytes, replace 2", call)?;
    desk.step("with 62 kept bytes, strike 2", Call::Strike(2))?;
    desk.lend(200, 6, 63);
    desk.step("with 63 kept bytes, replace 2", call)?;
    desk.lend(120, 6, 63);
    desk.step("in 120 bytes, undo", Call::Undo)?;
    desk.lend(121, 6, 63);
    desk.step("in 121 bytes, undo", Call::Undo)?;
    desk.step("with 63 kept bytes, strike 2", Call::Strike(2))?;
    desk.lend(120, 6, 63);
    desk.step("in 120 bytes, undo", Call::Undo)?;
    desk.lend(121, 6, 63);
    desk.step("in 121 bytes, undo", Call::Undo)?;
    desk.tell_file()
}

pub(crate) fn lengths(rt: HostRuntime, set: &LoadedSet) -> io::Result<()> {
    println!(rt; "Lines of different lengths")?;
    let mut desk = Desk::new(rt, set, 200, 6, 200)?;
    desk.step("add 26 bytes", Call::Add(A))?;
    desk.step("add 63 bytes", Call::Add(ONE))?;
    desk.step("add 26 bytes", Call::Add(EUR))?;
    desk.tell_file()?;
    desk.steps_with_file(&THERE_AND_BACK)?;
    several(&mut desk)?;
    longer(&mut desk)?;
    shorter(&mut desk)
}
