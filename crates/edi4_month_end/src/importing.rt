// The delivery is imported, and imported again once it is put right.
use crate::correcting::{DIGITS, put_amount};
use crate::desk::{CHANGES, Desk, FILE_BYTES, KEPT_BYTES};
use crate::telling::{tell_answer, tell_draft};
use crate::trouble::Trouble;
use basics::money::Hundredths;
use basics::refusal::Refusal;
use files::cut::count_lines;

// What the customer meant.
const MEANT: u64 = 988_800;

fn open_the_draft(rt: HostRuntime, desk: &Desk, delivery: &[u8]) -> Result<(), Trouble> {
    println!(rt;
        "Month end: a delivery has come in, of {} lines and {} bytes.",
        count_lines(delivery).lines,
        delivery.len()
    )?;
    println!(rt;
        "The clerk opens a new draft, with room for {FILE_BYTES} file bytes, {CHANGES} changes and {KEPT_BYTES} kept bytes."
    )?;
    tell_draft(rt, desk)
}

// Puts the refused delivery right and imports it.
fn import_again(
    rt: HostRuntime,
    desk: &mut Desk,
    delivery: &mut [u8],
    refusal: Refusal,
) -> Result<(), Trouble> {
    put_amount(delivery, refusal, MEANT)?;
    println!(rt;
        "Number {} says that an amount is zero. The customer meant {}.",
        refusal.reason.number(),
        Hundredths(MEANT)
    )?;
    println!(rt;
        "The {DIGITS} digits of that amount are put over the zeros, from byte {} of line {}.",
        refusal.byte, refusal.line
    )?;
    println!(rt; "The corrected delivery is imported.")?;
    let answer = desk.import(delivery);
    tell_answer(rt, desk, answer)
}

pub(crate) fn import_delivery(
    rt: HostRuntime,
    desk: &mut Desk,
    delivery: &mut [u8],
) -> Result<(), Trouble> {
    open_the_draft(rt, desk, delivery)?;
    println!(rt; "The delivery is imported.")?;
    let answer = desk.import(delivery);
    tell_answer(rt, desk, answer)?;
    match answer {
        Ok(()) => Ok(()),
        Err(refusal) => import_again(rt, desk, delivery, refusal),
    }
}
