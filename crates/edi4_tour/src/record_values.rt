// The values of a payment: read, one of them changed, and written back.
use crate::tell_refusal;
use layouts::built_in::BuiltIn;
use reading::read::read;
use std::io;
use values::row::{ValueRow, Values};
use writing::write::write;

// Fixed memory, as of a maker without a heap. Each sample program stands alone and shows its own.
// More rows than any payment has.
const ROWS: usize = 140;

// The longest line of the built-in set.
const BYTES: usize = 2101;

const NO_VALUE: ValueRow = ValueRow {
    number: 0,
    place: 0,
    length: 0,
};

// The amount is the third value of a payment: the type of advice and the account come before it.
const AMOUNT: usize = 2;

// Where two lines differ.
fn tell_difference(rt: HostRuntime, line: &[u8], other: &[u8]) -> io::Result<()> {
    for (k, (was, is)) in line.iter().zip(other).enumerate() {
        if was != is {
            let place = k.saturating_add(1);
            println!(rt;
                "    byte {place}: {} became {}",
                char::from(*was),
                char::from(*is)
            )?;
        }
    }
    Ok(())
}

// Reads the payment, doubles its amount, and writes it back.
pub(crate) fn change_the_amount(rt: HostRuntime, line: &[u8]) -> io::Result<()> {
    let mut rows = [NO_VALUE; ROWS];
    let found = match read(&BuiltIn, line, &mut rows) {
        Ok(found) => found,
        Err(e) => return tell_refusal(rt, e),
    };
    let used = found.rows.min(ROWS);
    println!(rt;
        "The payment has {used} values, and its record is {:05}.",
        found.digits
    )?;
    let amount = rows[AMOUNT].number;
    let twice = amount.saturating_mul(2);
    rows[AMOUNT].number = twice;
    println!(rt; "Its amount of {amount} becomes {twice}, and it is written back:")?;
    let mut out = [0u8; BYTES];
    let values = Values {
        rows: &rows[..used],
        bytes: line,
    };
    match write(&BuiltIn, found.digits, &values, &mut out) {
        Ok(n) => tell_difference(rt, line, &out[..n.min(BYTES)]),
        Err(e) => tell_refusal(rt, e),
    }
}
