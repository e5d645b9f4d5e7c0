// A payment made from another one.
use crate::trouble::Trouble;
use layouts::built_in::BuiltIn;
use reading::read::read;
use std::alloc::Global;
use values::row::{ValueRow, Values};
use writing::write::write;

// Fixed memory, as of a maker without a heap. Each sample program stands alone and shows its own.
// More rows than any record of the built-in set has.
const ROWS: usize = 140;

// The longest line of the built-in set.
const BYTES: usize = 2101;

const NO_VALUE: ValueRow = ValueRow {
    number: 0,
    place: 0,
    length: 0,
};

// The third and the fourth value of every such record: the type of advice and the account come
// before them.
const AMOUNT: usize = 2;

const CURRENCY: usize = 3;

// A payment like this line, of another amount and currency. They are a plain number and plain bytes, as
// a clerk hands them in: writing is to judge them. The new currency stands behind the line
// in the bytes that the rows point into.
pub(crate) fn payment_like(
    heap: Global,
    line: &[u8],
    hundredths: u64,
    currency: &[u8],
) -> Result<Vec<u8>, Trouble> {
    let mut rows = [NO_VALUE; ROWS];
    let found = read(&BuiltIn, line, &mut rows)?;
    rows[AMOUNT].number = hundredths;
    rows[CURRENCY].place = line.len() + 1;
    rows[CURRENCY].length = currency.len();
    let mut bytes = Vec::from_slice(heap, line)?;
    bytes.extend_from_slice(currency)?;
    let mut payment = vec![in heap; 0; BYTES]?;
    let used = found.rows.min(ROWS);
    let values = Values {
        rows: &rows[..used],
        bytes: &bytes,
    };
    let length = write(&BuiltIn, found.digits, &values, &mut payment)?;
    payment.truncate(length);
    Ok(payment)
}
