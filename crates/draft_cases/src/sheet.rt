// Two lines, a strike, and undo all the way back.
use crate::desk::Desk;
use crate::sample::{DKK, EUR};
use crate::tell::tell_yes;
use runs::call::Call;
use std::io;
use strips::loaded_set::LoadedSet;

pub(crate) fn the_sheets_run(rt: HostRuntime, set: &LoadedSet) -> io::Result<()> {
    println!(rt; "The sheet's run")?;
    let mut desk = Desk::new(rt, set, 100, 5, 60)?;
    desk.step("add DKK 175.25", Call::Add(DKK))?;
    desk.step("add EUR 200.00", Call::Add(EUR))?;
    desk.tell_file()?;
    let two = desk.shown().to_vec(rt.alloc())?;
    desk.step("strike 1", Call::Strike(1))?;
    desk.tell_file()?;
    desk.tell_rows()?;
    desk.tell_kept()?;
    desk.step("undo", Call::Undo)?;
    desk.tell_file()?;
    let same = desk.shown() == two.as_slice();
    tell_yes(rt, "  the same bytes as before the strike", same)?;
    desk.steps(&[("undo", Call::Undo); 3])
}
