// Reports and surveys.
use crate::tiny::Tiny;
use layouts::built_in::BuiltIn;
use reports::fault_row::{FaultRow, Survey};
use reports::report::report;
use reports::survey::survey;
use std::io;
use std::io::Write;

// Prints the report of the bytes, or its refusal.
fn tell_report(rt: HostRuntime, what: &str, bytes: &[u8], out: &mut [u8]) -> io::Result<()> {
    println!(rt; "{what}")?;
    match report(&BuiltIn, bytes, out) {
        Ok(n) => rt.stdout().write_all(&out[..n.min(out.len())]),
        Err(e) => {
            let first = out.first().copied().unwrap_or(0);
            println!(rt;
                "  {}, and the first byte of the room is {first}",
                e.reason.number()
            )
        }
    }
}

pub(crate) fn reports(rt: HostRuntime) -> io::Result<()> {
    let mut room = [46u8; 4022];
    tell_report(rt, "report of UBT CR LF", b"UBT\r\n", &mut room)?;
    tell_report(rt, "report of nothing", b"", &mut room)?;
    tell_report(rt, "an unended line", b"UBT\r\nUBT", &mut room)?;
    tell_report(
        rt,
        "a lone LF and a lone CR",
        b"UBT04500\n\r\nUBT\r",
        &mut room,
    )?;
    tell_report(rt, "CR CR LF", b"UBT045000\r\r\n", &mut room)?;
    let mut short = [46u8; 61];
    tell_report(rt, "room for 61 bytes", b"UBT\r\n", &mut short)?;
    let mut enough = [46u8; 62];
    tell_report(rt, "room for 62 bytes", b"UBT\r\n", &mut enough)?;
    many_bad_lines(rt, &mut room)?;
    let long = vec![in rt.alloc(); b' '; 65_537]?;
    tell_report(rt, "65,537 bytes", &long, &mut room)?;
    let most = vec![in rt.alloc(); b' '; 65_536]?;
    tell_report(rt, "65,536 bytes", &most, &mut room)
}

// 101 bad lines: the first 100 are shown, and the report has 4,022 bytes.
fn many_bad_lines(rt: HostRuntime, room: &mut [u8]) -> io::Result<()> {
    let bytes = b"\r\n".repeat(rt.alloc(), 101)?;
    let Ok(n) = report(&BuiltIn, &bytes, room) else {
        return println!(rt; "101 bad lines: no room");
    };
    println!(rt; "101 bad lines: a report of {n} bytes, which ends")?;
    match room.get(..n).and_then(|shown| shown.last_chunk::<40>()) {
        Some(end) => rt.stdout().write_all(end),
        None => Ok(()),
    }
}

// Three bad lines of four, and two rows for them in memory for three.
pub(crate) fn surveys(rt: HostRuntime) -> io::Result<()> {
    let bytes = b"UBT99900000000000000000DKK\r\nUBT99900000000000017525DKK\r\n\r\nUBT";
    let mut rows = [FaultRow {
        line: 7,
        field: 7,
        byte: 7,
        number: 7,
    }; 4];
    let found = survey(&Tiny, bytes, &mut rows[..2]);
    tell_survey(rt, found, &rows)?;
    let found = survey(&Tiny, bytes, &mut rows);
    tell_survey(rt, found, &rows)
}

fn tell_survey(rt: HostRuntime, found: Survey, rows: &[FaultRow]) -> io::Result<()> {
    println!(rt; "survey: {} lines, {} bad", found.lines, found.bad)?;
    for row in rows {
        println!(rt;
            "  line {} field {} byte {} fault {}",
            row.line, row.field, row.byte, row.number
        )?;
    }
    Ok(())
}
