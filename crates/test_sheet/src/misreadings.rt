// Misreadings that are common, each of which is refused or cannot be.
use crate::draft_calls::{Desk, EUR};
use crate::records::{PAYMENT, Piece, line_of};
use crate::rules::DKK;
use crate::sheet::Sheet;
use crate::verdict::{Verdict, in_line};
use edi4::{BuiltIn, Call, Reason, ValueRow, judge, read};
use std::io;

const NO_ROW: ValueRow = ValueRow {
    number: 0,
    place: 0,
    length: 0,
};

// 2102 is the first place behind a full payment, and no length.
fn a_place_for_a_length(sheet: &mut Sheet) -> io::Result<()> {
    let mut full = line_of(sheet.rt.alloc(), &PAYMENT, [4, 41, 3])?;
    full.push(b' ')?;
    sheet.row("bytes of a payment taken to have 2102", 2102, full.len())?;
    let left_over = in_line(Reason::BytesLeftOver, 23, 2102);
    sheet.row("its verdict", left_over, judge(&BuiltIn, &full).into())
}

// Behind one line of the name and two of the message the next count stands at 334. A writer that
// puts it where it stands behind four message lines, at 404, leaves 70 blanks in between.
fn a_printed_place(sheet: &mut Sheet) -> io::Result<()> {
    let heap = sheet.rt.alloc();
    let at_334 = line_of(heap, &PAYMENT, [1, 2, 0])?;
    sheet.row(
        "message of two lines",
        Verdict::Accepted(1),
        judge(&BuiltIn, &at_334).into(),
    )?;
    let four = line_of(heap, &PAYMENT, [1, 4, 0])?;
    sheet.row(
        "message of four lines",
        Verdict::Accepted(1),
        judge(&BuiltIn, &four).into(),
    )?;
    let mut at_404 = at_334.get(..333).unwrap_or(b"").to_vec(heap)?;
    at_404.extend_from_slice(&[b' '; 70])?;
    at_404.extend_from_slice(at_334.get(333..).unwrap_or(b""))?;
    let blank_count = in_line(Reason::ForbiddenByte, 18, 334);
    sheet.row(
        "two lines, the next count at 404",
        blank_count,
        judge(&BuiltIn, &at_404).into(),
    )
}

// The end of the message block taken as part of it: a payee would see one line more, which reads 00.
// Reading gives the two lines and no other, and then the count behind the block.
fn a_line_that_reads_00(sheet: &mut Sheet) -> io::Result<()> {
    let mut pieces = PAYMENT;
    pieces[11] = Piece::Fill(b' ', 156);
    let mut line = line_of(sheet.rt.alloc(), &pieces, [1, 2, 0])?;
    line.extend_from_slice(b"0123456789012345678901234567890123X")?;
    let mut rows = [NO_ROW; 30];
    let count = match read(&BuiltIn, &line, &mut rows) {
        Ok(reading) => reading.rows,
        Err(_) => 0,
    };
    sheet.row(
        "values of a payment with one line of a name and two of a message",
        22,
        count,
    )?;
    sheet.row("lines of the message", 2, rows[16].number)?;
    sheet.row("its first line stands at", 264, rows[17].place)?;
    sheet.row("its second line stands at", 299, rows[18].place)?;
    sheet.row("lines of the alternative remitter", 0, rows[19].number)?;
    sheet.row("the debtor's identification stands at", 492, rows[21].place)?;
    sheet.row("its bytes", 35, rows[21].length)
}

// A struck line comes back to its own place, and not to the end.
fn a_line_undone_to_the_end(sheet: &mut Sheet) -> io::Result<()> {
    let mut desk = Desk::new(sheet)?;
    let _ = desk.call(Call::Add(DKK));
    let _ = desk.call(Call::Add(EUR));
    let before = desk.shown().to_vec(sheet.rt.alloc())?;
    let _ = desk.call(Call::Strike(1));
    let undone = desk.call(Call::Undo);
    sheet.row("strike 1, then undo", Verdict::Accepted(0), undone)?;
    let same = desk.shown() == before.as_slice();
    sheet.row("the draft is as it was", true, same)?;
    let first = desk.shown().starts_with(DKK);
    sheet.row("the struck line is the first", true, first)
}

pub(crate) fn misreadings(sheet: &mut Sheet) -> io::Result<()> {
    sheet.heading("Common misreadings")?;
    a_place_for_a_length(sheet)?;
    a_printed_place(sheet)?;
    a_line_that_reads_00(sheet)?;
    a_line_undone_to_the_end(sheet)
}
