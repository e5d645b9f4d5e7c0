// A set with one block of at most two lines.
use crate::records::Piece::{Block, Bytes, Fill};
use crate::records::line_of;
use crate::sheet::Sheet;
use crate::verdict::{Verdict, in_line};
use edi4::{LoadedSet, Reason, judge};
use std::io;

const NAME: &[u8] = b"UBT99901000000000017525DKK";

pub(crate) fn blocks(sheet: &mut Sheet) -> io::Result<()> {
    sheet.heading("A block of at most two lines")?;
    let heap = sheet.rt.alloc();
    let mut set = LoadedSet::new(heap)?;
    let answer = set.load(b"U99901PVL0002");
    sheet.row("U99901PVL0002", Verdict::Accepted(0), answer.into())?;
    let three = line_of(heap, &[Bytes(NAME), Block(0)], [3, 0, 0])?;
    let out_of_bounds = in_line(Reason::OutOfBounds, 4, 27);
    sheet.row("count 03", out_of_bounds, judge(&set, &three).into())?;
    let short = line_of(heap, &[Bytes(NAME), Bytes(b"02"), Fill(b'z', 69)], [0; 3])?;
    let ends = in_line(Reason::LineEndsEarly, 4, 98);
    sheet.row("count 02 with 69 bytes", ends, judge(&set, &short).into())?;
    let one = line_of(heap, &[Bytes(NAME), Block(0)], [1, 0, 0])?;
    sheet.row(
        "count 01 with 35 bytes",
        Verdict::Accepted(1),
        judge(&set, &one).into(),
    )
}
