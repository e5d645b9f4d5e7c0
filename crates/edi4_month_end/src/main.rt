// The month end of a clerk: a delivery is put right, imported into a draft, changed and sealed.
// The delivery is read from standard input.
#![tactic(auto)]

mod correcting;
mod desk;
mod importing;
mod payments;
mod records;
mod sealing;
mod steps;
mod telling;
mod trouble;

use crate::desk::Desk;
use crate::importing::import_delivery;
use crate::sealing::seal_the_draft;
use crate::steps::change_the_draft;
use crate::telling::tell_refusal;
use crate::trouble::Trouble;
use std::io;
use std::io::Read;

fn month_end(rt: HostRuntime) -> Result<(), Trouble> {
    let mut delivery = Vec::new(rt.alloc());
    rt.stdin().read_to_end(&mut delivery)?;
    let mut desk = Desk::new(rt.alloc())?;
    import_delivery(rt, &mut desk, &mut delivery)?;
    change_the_draft(rt, &mut desk)?;
    seal_the_draft(rt, desk)
}

fn main(rt: HostRuntime) -> io::Result<()> {
    match month_end(rt) {
        Ok(()) => Ok(()),
        Err(Trouble::Refused(e)) => tell_refusal(rt, e),
        Err(Trouble::NotCorrected) => println!(rt; "The clerk cannot put that right."),
        Err(Trouble::NoLine(n)) => println!(rt; "    There is no line {n}."),
        Err(Trouble::Outside(e)) => Err(e),
    }
}
