// Sealing a draft.
use crate::desk::Desk;
use crate::sample::{DKK, TWO_LINES};
use crate::shown::Shown;
use drafts::draft::Draft;
use drafts::sealed::{Sealed, Unsealed};
use runs::call::Call;
use std::io;
use strips::loaded_set::LoadedSet;

fn tell_show(rt: HostRuntime, sealed: &Sealed, file: &[u8], n: usize) -> io::Result<()> {
    let n = n.min(file.len());
    match sealed.show(&file[..n]) {
        Ok(bytes) => println!(rt; "  show in {n} bytes: {}", Shown(bytes)),
        Err(e) => println!(rt; "  show in {n} bytes: {e}"),
    }
}

// Seals the draft of the desk. Where that is refused, the draft lies there again.
fn seal(desk: &mut Desk<'_>, what: &str) -> io::Result<()> {
    let draft = std::mem::replace(&mut desk.draft, Draft::new());
    match draft.seal() {
        Ok(sealed) => {
            println!(desk.rt; "{what}: sealed")?;
            for n in [100, 28, 27, 0] {
                tell_show(desk.rt, &sealed, &desk.file, n)?;
            }
            Ok(())
        }
        Err(Unsealed { refusal, draft }) => {
            desk.draft = draft;
            println!(desk.rt; "{what}: {refusal}")
        }
    }
}

pub(crate) fn sealing(rt: HostRuntime, set: &LoadedSet) -> io::Result<()> {
    println!(rt; "Sealing")?;
    let mut desk = Desk::new(rt, set, 100, 5, 60)?;
    seal(&mut desk, "seal a new draft")?;
    desk.step("add", Call::Add(DKK))?;
    desk.step("undo", Call::Undo)?;
    seal(&mut desk, "seal after undo")?;
    desk.step("import", Call::Import(TWO_LINES))?;
    desk.steps(&[("strike 1", Call::Strike(1)); 2])?;
    seal(&mut desk, "seal with every line struck")?;
    desk.step("undo", Call::Undo)?;
    desk.tell_file()?;
    seal(&mut desk, "seal")
}
