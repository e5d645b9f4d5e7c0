// The smallest and the largest line of each built-in layout, and the first place behind each block.
use crate::records::{ADVICE, CHEQUE, PAYMENT, Piece, SHORT_ADVICE, line_of, put};
use crate::sheet::Sheet;
use crate::verdict::{Verdict, in_line};
use edi4::{BuiltIn, Reason, judge};
use std::io;

// A line of layout `number`, how long it is by the format, and the fields behind its blocks, each
// with its first place.
#[derive(Clone, Copy)]
struct Case<'a> {
    what: &'a str,
    number: u64,
    pieces: &'a [Piece],
    counts: [usize; 3],
    length: usize,
    fields: usize,
    behind: &'a [(usize, usize)],
}

// The line is judged as it is, and with each of these places damaged: byte 0 may stand nowhere.
fn line(sheet: &mut Sheet, case: Case<'_>) -> io::Result<()> {
    println!(sheet.rt; "  {}", case.what)?;
    let line = line_of(sheet.rt.alloc(), case.pieces, case.counts)?;
    sheet.row("length", case.length, line.len())?;
    sheet.row(
        "verdict",
        Verdict::Accepted(case.number),
        judge(&BuiltIn, &line).into(),
    )?;
    for (field, place) in case.behind {
        let mut damaged = line.clone()?;
        put(&mut damaged, *place, 0);
        let expected = in_line(Reason::ForbiddenByte, *field, *place);
        sheet.row(
            "damaged behind a block",
            expected,
            judge(&BuiltIn, &damaged).into(),
        )?;
    }
    let mut longer = line.clone()?;
    longer.push(b' ')?;
    let place = case.length.saturating_add(1);
    let left_over = in_line(Reason::BytesLeftOver, case.fields.saturating_add(1), place);
    sheet.row("a byte more", left_over, judge(&BuiltIn, &longer).into())?;
    let mut shorter = line.clone()?;
    let _ = shorter.pop();
    let ends = in_line(Reason::LineEndsEarly, case.fields, case.length);
    sheet.row("a byte less", ends, judge(&BuiltIn, &shorter).into())
}

fn payments(sheet: &mut Sheet) -> io::Result<()> {
    line(
        sheet,
        Case {
            what: "the smallest payment",
            number: 1,
            pieces: &PAYMENT,
            counts: [0, 0, 0],
            length: 421,
            fields: 22,
            behind: &[(17, 227), (18, 229), (19, 231)],
        },
    )?;
    line(
        sheet,
        Case {
            what: "the largest payment",
            number: 1,
            pieces: &PAYMENT,
            counts: [4, 41, 3],
            length: 2101,
            fields: 22,
            behind: &[(17, 367), (18, 1804), (19, 1911)],
        },
    )
}

fn advices(sheet: &mut Sheet) -> io::Result<()> {
    line(
        sheet,
        Case {
            what: "the smallest advice with its texts",
            number: 2,
            pieces: &ADVICE,
            counts: [0, 0, 0],
            length: 368,
            fields: 25,
            behind: &[(14, 129), (15, 131), (16, 133)],
        },
    )?;
    line(
        sheet,
        Case {
            what: "the largest advice with its texts",
            number: 2,
            pieces: &ADVICE,
            counts: [4, 41, 3],
            length: 2048,
            fields: 25,
            behind: &[(14, 269), (15, 1706), (16, 1813)],
        },
    )?;
    line(
        sheet,
        Case {
            what: "an advice without texts",
            number: 3,
            pieces: &SHORT_ADVICE,
            counts: [0, 0, 0],
            length: 242,
            fields: 21,
            behind: &[],
        },
    )
}

fn cheques(sheet: &mut Sheet) -> io::Result<()> {
    line(
        sheet,
        Case {
            what: "the smallest foreign cheque",
            number: 4,
            pieces: &CHEQUE,
            counts: [3, 0, 0],
            length: 536,
            fields: 31,
            behind: &[(19, 381), (20, 383), (21, 385)],
        },
    )?;
    line(
        sheet,
        Case {
            what: "the largest foreign cheque",
            number: 4,
            pieces: &CHEQUE,
            counts: [4, 4, 3],
            length: 816,
            fields: 31,
            behind: &[(19, 416), (20, 558), (21, 665)],
        },
    )
}

pub(crate) fn places(sheet: &mut Sheet) -> io::Result<()> {
    sheet.heading("Lines of the built-in set")?;
    payments(sheet)?;
    advices(sheet)?;
    cheques(sheet)
}
