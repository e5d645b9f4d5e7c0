// Values read from lines and written back.
use crate::built_lines::{LAYOUTS, line_of, put_largest, put_smallest};
use crate::cases::tell;
use crate::tiny::Tiny;
use basics::refusal::Refusal;
use comparing::records::same_record;
use comparing::rows::same_values;
use layouts::built_in::BuiltIn;
use layouts::field::Field;
use reading::read::read;
use std::alloc::AllocError;
use std::io;
use values::row::{ValueRow, Values};
use writing::write::write;

const EMPTY: ValueRow = ValueRow {
    number: 7,
    place: 7,
    length: 7,
};

fn number(number: u64) -> ValueRow {
    ValueRow {
        number,
        place: 0,
        length: 0,
    }
}

fn text(place: usize, length: usize) -> ValueRow {
    ValueRow {
        number: 0,
        place,
        length,
    }
}

fn tell_rows(rt: HostRuntime, rows: &[ValueRow]) -> io::Result<()> {
    for row in rows {
        println!(rt;
            "  number {} place {} length {}",
            row.number, row.place, row.length
        )?;
    }
    Ok(())
}

// The rows of a short line, in memory for one row more; and in memory for one row less.
pub(crate) fn rows_of_a_short_line(rt: HostRuntime) -> io::Result<()> {
    let line = b"UBT99900000000000017525DKK";
    let mut rows = [EMPTY; 3];
    if let Ok(found) = read(&Tiny, line, &mut rows) {
        println!(rt; "read: digits {}, {} rows", found.digits, found.rows)?;
    }
    tell_rows(rt, &rows)?;
    let mut one = [EMPTY; 1];
    match read(&Tiny, line, &mut one) {
        Ok(_) => println!(rt; "read into one row"),
        Err(e) => {
            tell(rt, "one row", Err(e))?;
            println!(rt; "  the row still has {}", one[0].number)
        }
    }
}

// Called for each case, and no table: the cases have different numbers of rows.
fn tell_write(
    rt: HostRuntime,
    what: &str,
    digits: u32,
    rows: &[ValueRow],
    bytes: &[u8],
) -> io::Result<()> {
    let mut out = [46u8; 30];
    match write(&Tiny, digits, &Values { rows, bytes }, &mut out) {
        Ok(n) => println!(rt; "{what}: {n} bytes"),
        Err(e) => {
            tell(rt, what, Err(e))?;
            if out != [46u8; 30] {
                println!(rt; "  the memory is altered")?;
            }
            Ok(())
        }
    }
}

// Digits that no layout has, too few and too many rows, numbers out of bounds.
pub(crate) fn refused_rows(rt: HostRuntime) -> io::Result<()> {
    let amount = number(17525);
    let currency = text(1, 3);
    tell_write(rt, "two rows", 99900, &[amount, currency], b"DKK")?;
    tell_write(rt, "unknown digits", 99999, &[amount, currency], b"DKK")?;
    tell_write(rt, "no rows", 99900, &[], b"DKK")?;
    tell_write(rt, "one row", 99900, &[amount], b"DKK")?;
    tell_write(
        rt,
        "three rows",
        99900,
        &[amount, currency, currency],
        b"DKK",
    )?;
    tell_write(rt, "amount 0", 99900, &[number(0), currency], b"DKK")?;
    tell_write(
        rt,
        "an amount of 16 digits",
        99900,
        &[number(1_000_000_000_000_000), currency],
        b"DKK",
    )
}

// Texts outside of their bytes, and texts that are no currency.
pub(crate) fn refused_texts(rt: HostRuntime) -> io::Result<()> {
    let amount = number(17525);
    let currency = text(1, 3);
    tell_write(rt, "place 0", 99900, &[amount, text(0, 3)], b"DKK")?;
    tell_write(
        rt,
        "a text across the end",
        99900,
        &[amount, text(2, 3)],
        b"DKK",
    )?;
    tell_write(
        rt,
        "a text behind the end",
        99900,
        &[amount, text(9, 0)],
        b"DKK",
    )?;
    tell_write(rt, "a short currency", 99900, &[amount, text(1, 2)], b"DKK")?;
    tell_write(rt, "a long currency", 99900, &[amount, text(1, 4)], b"DKKK")?;
    tell_write(rt, "small letters", 99900, &[amount, currency], b"dkk")
}

// Blocks whose rows, count, text or room do not do.
pub(crate) fn refused_blocks(rt: HostRuntime) -> io::Result<()> {
    let amount = number(17525);
    let currency = text(1, 3);
    tell_write(
        rt,
        "a block without its line",
        99901,
        &[amount, currency, number(1)],
        b"DKK",
    )?;
    tell_write(rt, "count 3", 99901, &[amount, currency, number(3)], b"DKK")?;
    tell_write(
        rt,
        "a line with a blank behind it",
        99901,
        &[amount, currency, number(1), text(4, 1)],
        b"DKK ",
    )?;
    tell_write(
        rt,
        "no room for a block's line",
        99901,
        &[amount, currency, number(1), text(4, 0)],
        b"DKK",
    )
}

// A block of a blank line and a full one is read and written back.
pub(crate) fn blank_line_in_a_block(rt: HostRuntime) -> io::Result<()> {
    let line =
        b"UBT99901000000000017525DKK02                                   Thirty-five bytes of text, no more.";
    let mut rows = [EMPTY; 5];
    let mut out = [46u8; 98];
    let found = match read(&Tiny, line, &mut rows) {
        Ok(found) => found,
        Err(e) => return tell(rt, "not read", Err(e)),
    };
    tell_rows(rt, &rows)?;
    let values = Values {
        rows: &rows,
        bytes: line,
    };
    match write(&Tiny, found.digits, &values, &mut out) {
        Ok(98) if out == *line => println!(rt;
            "a block with a blank line is written back the same"
        ),
        _ => println!(rt; "a block with a blank line is not written back"),
    }
}

fn tell_same(rt: HostRuntime, what: &str, answer: Result<bool, Refusal>) -> io::Result<()> {
    match answer {
        Ok(same) => println!(rt; "{what}: {same}"),
        Err(e) => tell(rt, what, Err(e)),
    }
}

// Lists of rows against each other: what a row does not use is set aside.
fn value_answers() -> [(&'static str, Result<bool, Refusal>); 4] {
    let rows = [number(17525), text(24, 3)];
    let odd = ValueRow {
        number: 17525,
        place: 8,
        length: 9,
    };
    let others = [odd, text(1, 3)];
    let values = Values {
        rows: &rows,
        bytes: b"UBT99900000000000017525DKK",
    };
    let elsewhere = Values {
        rows: &others,
        bytes: b"DKK",
    };
    let euros = Values {
        rows: &others,
        bytes: b"EUR",
    };
    let fewer = Values {
        rows: &others[0..1],
        bytes: b"DKK",
    };
    [
        (
            "the same values elsewhere",
            same_values(&Tiny, 99900, &values, &elsewhere),
        ),
        ("another text", same_values(&Tiny, 99900, &values, &euros)),
        ("a row less", same_values(&Tiny, 99900, &values, &fewer)),
        ("unknown digits", same_values(&Tiny, 1, &values, &elsewhere)),
    ]
}

// Equal records and equal lists of rows.
pub(crate) fn equality(rt: HostRuntime) -> io::Result<()> {
    let dkk = b"UBT99900000000000017525DKK";
    let eur = b"UBT99900000000000017525EUR";
    tell_same(rt, "the same record", same_record(&Tiny, dkk, dkk))?;
    tell_same(rt, "another currency", same_record(&Tiny, dkk, eur))?;
    tell_same(rt, "the other is bad", same_record(&Tiny, dkk, b"UBT"))?;
    for (what, answer) in value_answers() {
        tell_same(rt, what, answer)?;
    }
    Ok(())
}

// A line is read and written back.
fn there_and_back(rt: HostRuntime, line: &[u8]) -> io::Result<()> {
    let mut rows = [EMPTY; 140];
    let mut out = [46u8; 2101];
    let found = match read(&BuiltIn, line, &mut rows) {
        Ok(found) => found,
        Err(e) => return tell(rt, "not read", Err(e)),
    };
    let digits = found.digits;
    let used = &rows[..found.rows.min(140)];
    let last = used.last().copied().unwrap_or(EMPTY);
    print!(rt;
        "layout {digits}: {} rows, the last at {} of length {},",
        used.len(),
        last.place,
        last.length
    )?;
    let values = Values {
        rows: used,
        bytes: line,
    };
    match write(&BuiltIn, digits, &values, &mut out) {
        Ok(n) if out.get(..n) == Some(line) => println!(rt; " written back the same"),
        _ => println!(rt; " not written back"),
    }
}

// A line of each layout, whose fields are as `put` writes them.
fn lines_there_and_back<F: Fn(&mut Vec<u8>, Field) -> Result<(), AllocError>>(
    rt: HostRuntime,
    put: F,
) -> io::Result<()>
    requires { F.IsAlwaysCallable put }
{
    for (j, name) in LAYOUTS {
        there_and_back(rt, &line_of(rt.alloc(), j, name, &put)?)?;
    }
    Ok(())
}

pub(crate) fn round_trips(rt: HostRuntime) -> io::Result<()> {
    lines_there_and_back(rt, put_smallest)?;
    lines_there_and_back(rt, put_largest)
}
