// Lines that are struck or replaced come back to their own places.
use crate::desk::Desk;
use crate::sample::{DKK, THREE};
use runs::call::Call;
use std::io;
use strips::loaded_set::LoadedSet;

// A strike or a replacement of one line, and undo.
fn there_and_back(desk: &mut Desk<'_>, what: &str, call: Call<'_>) -> io::Result<()> {
    desk.step_with_file(what, call)?;
    desk.tell_rows()?;
    desk.tell_kept()?;
    desk.step_with_file("undo", Call::Undo)
}

fn several(desk: &mut Desk<'_>) -> io::Result<()> {
    desk.step("strike 2", Call::Strike(2))?;
    desk.step("strike 1", Call::Strike(1))?;
    desk.step("replace 1", Call::Replace(1, DKK))?;
    desk.tell_file()?;
    desk.tell_rows()?;
    desk.tell_kept()?;
    desk.steps_with_file(&[("undo", Call::Undo); 3])
}

fn every_line(desk: &mut Desk<'_>) -> io::Result<()> {
    desk.steps(&[("strike 1", Call::Strike(1)); 3])?;
    desk.tell_kept()?;
    desk.steps_with_file(&[("undo", Call::Undo); 4])
}

pub(crate) fn own_places(rt: HostRuntime, set: &LoadedSet) -> io::Result<()> {
    println!(rt; "Lines come back to their own places")?;
    let mut desk = Desk::new(rt, set, 100, 5, 80)?;
    desk.step_with_file("import three lines", Call::Import(THREE))?;
    there_and_back(&mut desk, "strike 2", Call::Strike(2))?;
    there_and_back(&mut desk, "replace 2", Call::Replace(2, DKK))?;
    there_and_back(&mut desk, "strike 3", Call::Strike(3))?;
    there_and_back(&mut desk, "replace 3", Call::Replace(3, DKK))?;
    there_and_back(&mut desk, "strike 1", Call::Strike(1))?;
    several(&mut desk)?;
    every_line(&mut desk)
}
