// The changes of the draft: a payment is added, one replaced, one struck, and the strike undone.
use crate::desk::Desk;
use crate::payments::payment_like;
use crate::records::{line_of, tell_line};
use crate::telling::tell_answer;
use crate::trouble::Trouble;
use basics::money::Hundredths;
use std::alloc::Global;

// What the added payment pays.
const ADDED: u64 = 12_500;

// What the payment pays that replaces line 1.
const REPLACING: u64 = 995_000;

// A payment like line n of the draft, of another amount and currency.
fn payment_like_line(
    heap: Global,
    desk: &Desk,
    n: usize,
    hundredths: u64,
    currency: &[u8],
) -> Result<Vec<u8>, Trouble> {
    payment_like(heap, line_of(desk.show()?, n)?, hundredths, currency)
}

fn add_a_payment(rt: HostRuntime, desk: &mut Desk) -> Result<(), Trouble> {
    println!(rt;
        "A payment is added: like line 1, but of {} EUR.",
        Hundredths(ADDED)
    )?;
    let payment = payment_like_line(rt.alloc(), desk, 1, ADDED, b"EUR")?;
    let answer = desk.add(&payment);
    tell_answer(rt, desk, answer)
}

fn replace_a_payment(rt: HostRuntime, desk: &mut Desk) -> Result<(), Trouble> {
    println!(rt;
        "Line 1 is replaced: by a payment like line 3, but of {} DKK.",
        Hundredths(REPLACING)
    )?;
    let payment = payment_like_line(rt.alloc(), desk, 3, REPLACING, b"DKK")?;
    let answer = desk.replace(1, &payment);
    tell_answer(rt, desk, answer)
}

fn strike_a_payment(rt: HostRuntime, desk: &mut Desk) -> Result<(), Trouble> {
    println!(rt; "Line 2 is struck.")?;
    tell_line(rt, desk.show()?, 2)?;
    let answer = desk.strike(2);
    tell_answer(rt, desk, answer)?;
    tell_line(rt, desk.show()?, 2)
}

fn undo_the_strike(rt: HostRuntime, desk: &mut Desk) -> Result<(), Trouble> {
    println!(rt; "The strike is undone, and the line comes back to its own place.")?;
    let answer = desk.undo();
    tell_answer(rt, desk, answer)?;
    tell_line(rt, desk.show()?, 2)
}

pub(crate) fn change_the_draft(rt: HostRuntime, desk: &mut Desk) -> Result<(), Trouble> {
    add_a_payment(rt, desk)?;
    replace_a_payment(rt, desk)?;
    strike_a_payment(rt, desk)?;
    undo_the_strike(rt, desk)
}
