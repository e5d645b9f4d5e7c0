// Files of as many lines as a file may have, and of one more.
use crate::sheet::Sheet;
use crate::verdict::Verdict;
use edi4::{Layer, LoadedSet, Reason, Refusal, judge_file, total};
use std::io;

pub(crate) fn long_files(sheet: &mut Sheet) -> io::Result<()> {
    sheet.heading("Files")?;
    let heap = sheet.rt.alloc();
    let mut set = LoadedSet::new(heap)?;
    let _ = set.load(b"U99900PV");
    let mut file = b"UBT99900000000000017525DKK\r\n".repeat(heap, 1200)?;
    sheet.row(
        "1,200 lines",
        Verdict::Accepted(1200),
        judge_file(&set, &file).into(),
    )?;
    sheet.row(
        "their total",
        Verdict::Accepted(21030000),
        total(&set, &file, b"DKK").into(),
    )?;
    file.extend_from_slice(b"UBT99900000000000017525DKK\r\n")?;
    let too_many = Verdict::Refused(Refusal::new(Reason::TooManyLines, Layer::Files).in_line(1201));
    sheet.row("1,201 lines", too_many, judge_file(&set, &file).into())?;
    sheet.row("their total", too_many, total(&set, &file, b"DKK").into())
}
