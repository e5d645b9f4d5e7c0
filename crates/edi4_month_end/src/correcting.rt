// A delivery with an amount of zero is put right.
use crate::trouble::Trouble;
use basics::decimal;
use basics::refusal::{Reason, Refusal};
use changes::places::place_of;

// The digits of an amount.
pub(crate) const DIGITS: usize = 15;

// The digits of the amount that was refused, if it was refused because it is zero.
fn refused_digits(delivery: &mut [u8], refusal: Refusal) -> Option<&mut [u8; DIGITS]> {
    if refusal.reason != Reason::AmountZero {
        return None;
    }
    let line = place_of(delivery, refusal.line)?;
    let before = refusal.byte.checked_sub(1)?;
    let line = &mut delivery[line.at..line.at + line.size];
    let (_, rest) = line.split_at_mut_checked(before)?;
    rest.first_chunk_mut::<DIGITS>()
}

// Writes the digits of an amount over those that were refused.
pub(crate) fn put_amount(
    delivery: &mut [u8],
    refusal: Refusal,
    hundredths: u64,
) -> Result<(), Trouble> {
    let Some(digits) = refused_digits(delivery, refusal) else {
        return Err(Trouble::NotCorrected);
    };
    decimal::put(digits, hundredths);
    Ok(())
}
