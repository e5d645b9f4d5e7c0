// The lines of a report, and what is written into a lent room.
ghost use Rattle.std.specs.Prelude.{◌≡◌, ◌+◌, ◌*◌, ◌≤◌, ◌++◌, length, take, drop};
ghost use Rattle.reports.specs.Reports.{head_line, fault_line, shown, put_into, answer_of, room_after};

use crate::fault_row::{FaultRow, Survey};
use basics::decimal;
use basics::refusal::{Layer, Reason, Refusal};

// `LINES nnnnn BAD nnnnn` and LF.
fn head_line(found: Survey) -> [u8; 22]
    ensures { result ≡ head_line found.lines found.bad }
{
    let mut line = *b"LINES 00000 BAD 00000\n";
    decimal::put(&mut line[6..11], found.lines as u64);
    decimal::put(&mut line[16..21], found.bad as u64);
    line
}

// `LINE nnnnn FIELD nn BYTE nnnnn FAULT nn` and LF.
fn fault_line(row: FaultRow) -> [u8; 40]
    ensures { result ≡ fault_line row }
{
    let mut line = *b"LINE 00000 FIELD 00 BYTE 00000 FAULT 00\n";
    decimal::put(&mut line[5..10], row.line as u64);
    decimal::put(&mut line[17..19], row.field as u64);
    decimal::put(&mut line[25..30], row.byte as u64);
    decimal::put(&mut line[37..39], u64::from(row.number));
    line
}

// Puts bytes at a place of the room.
fn put_at(room: &mut [u8], at: usize, text: &[u8])
    requires { at + length text.now ≤ length room.old }
    ensures { room.new ≡ take at room.old ++ put_into text.now (drop at room.old) }
{
    let end = at + text.len();
    room[at..end].copy_from_slice(text);
}

// Puts the head and a line for each fault.
fn put_lines(room: &mut [u8], found: Survey, rows: &[FaultRow])
    requires { 22 + 40 * length rows.now ≤ length room.old }
    ensures { room.new ≡ put_into (shown found.lines found.bad rows.now) room.old }
{
    put_at(room, 0, &head_line(found));
    // The place runs on with the lines; out of the row's index it would be no plainer.
    let mut at = 22;
    for row in rows {
        put_at(room, at, &fault_line(*row));
        at += 40;
    }
}

// Puts a text, or refuses where there is no room for all of it.
pub(crate) fn put_text(room: &mut [u8], text: &[u8]) -> Result<usize, Refusal>
    ensures answer { result ≡ answer_of text.now room.old }
    ensures room { room.new ≡ room_after text.now room.old }
{
    if room.len() < text.len() {
        return Err(Refusal::new(Reason::NoRoom, Layer::Lines));
    }
    put_at(room, 0, text);
    Ok(text.len())
}

// Puts the head and a line for each fault, or refuses where there is no room for all of it.
pub(crate) fn put_report(
    room: &mut [u8],
    found: Survey,
    rows: &[FaultRow],
) -> Result<usize, Refusal>
    requires { length rows.now ≤ 100 }
    ensures answer { result ≡ answer_of (shown found.lines found.bad rows.now) room.old }
    ensures room { room.new ≡ room_after (shown found.lines found.bad rows.now) room.old }
{
    let length = 22 + 40 * rows.len();
    if room.len() < length {
        return Err(Refusal::new(Reason::NoRoom, Layer::Lines));
    }
    put_lines(room, found, rows);
    Ok(length)
}
