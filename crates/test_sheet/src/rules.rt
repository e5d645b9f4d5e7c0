// Strips, lines of the small set, and days: the rows that are also proved of the rules.
use crate::sheet::Sheet;
use crate::verdict::{Verdict, in_line, in_strips};
use edi4::{Day, LayoutSet, LoadedSet, Reason, fields_of, judge, read_money};
use std::io;

pub(crate) const DKK: &[u8] = b"UBT99900000000000017525DKK";

fn strips(sheet: &mut Sheet) -> io::Result<()> {
    sheet.heading("Strips")?;
    let mut set = LoadedSet::new(sheet.rt.alloc())?;
    let answer = set.load(b"U99900PV");
    sheet.row("U99900PV", Verdict::Accepted(0), answer.into())?;
    sheet.row("its layouts", 1, set.layouts())?;
    sheet.row("its fields", 3, fields_of(&set, 1).count())?;
    let answer = set.load(b"U99900P");
    sheet.row(
        "U99900P",
        in_strips(Reason::UnlawfulLayout, 1),
        answer.into(),
    )?;
    let answer = set.load(b"U99900PVU99900PV");
    let twice = in_strips(Reason::DigitsUsedBefore, 9);
    sheet.row("U99900PVU99900PV", twice, answer.into())
}

fn lines(sheet: &mut Sheet) -> io::Result<()> {
    sheet.heading("Lines")?;
    let mut set = LoadedSet::new(sheet.rt.alloc())?;
    let _ = set.load(b"U99900PV");
    sheet.row(
        "the line of 26 bytes",
        Verdict::Accepted(1),
        judge(&set, DKK).into(),
    )?;
    if let Ok(money) = read_money(&set, DKK) {
        sheet.row("its amount", 17525, money.amount.hundredths())?;
        sheet.row(
            "its currency is DKK",
            true,
            money.currency.letters() == *b"DKK",
        )?;
    }
    let cases: [(&str, &[u8], Verdict); 4] = [
        (
            "amount zero",
            b"UBT99900000000000000000DKK",
            in_line(Reason::AmountZero, 2, 9),
        ),
        (
            "DkK",
            b"UBT99900000000000017525DkK",
            in_line(Reason::ForbiddenByte, 3, 25),
        ),
        (
            "ending in DK",
            b"UBT99900000000000017525DK",
            in_line(Reason::LineEndsEarly, 3, 26),
        ),
        (
            "X after DKK",
            b"UBT99900000000000017525DKKX",
            in_line(Reason::BytesLeftOver, 4, 27),
        ),
    ];
    for (what, line, expected) in cases {
        sheet.row(what, expected, judge(&set, line).into())?;
    }
    Ok(())
}

fn days(sheet: &mut Sheet) -> io::Result<()> {
    sheet.heading("Days")?;
    sheet.row("20240229", true, Day::new(20240229).is_some())?;
    sheet.row("20000229", true, Day::new(20000229).is_some())?;
    sheet.row("20230229", false, Day::new(20230229).is_some())?;
    sheet.row("19000229", false, Day::new(19000229).is_some())
}

pub(crate) fn rules(sheet: &mut Sheet) -> io::Result<()> {
    strips(sheet)?;
    lines(sheet)?;
    days(sheet)
}
