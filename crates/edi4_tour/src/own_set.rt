// A layout set of one's own, written in strips and loaded.
use crate::tell_refusal;
use lines::judge::judge;
use std::io;
use strips::load::LoadError;
use strips::loaded_set::LoadedSet;

// Loads a set of one layout, an amount and a currency, and judges a line with it.
pub(crate) fn judge_with_an_own_set(rt: HostRuntime) -> io::Result<()> {
    let mut set = LoadedSet::new(rt.alloc())?;
    println!(rt; "A set of our own is loaded from the strips U99900PV.")?;
    match set.load(b"U99900PV") {
        Ok(()) => {}
        Err(LoadError::Refused(e)) => return tell_refusal(rt, e),
        Err(LoadError::NoMemory) => return println!(rt; "There is not enough memory."),
    }
    match judge(&set, b"UBT99900000000000017525DKK") {
        Ok(j) => println!(rt; "The line UBT99900000000000017525DKK belongs to layout {j} of it."),
        Err(e) => tell_refusal(rt, e),
    }
}
