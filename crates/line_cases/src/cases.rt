// Single lines against the tiny set.
use crate::tiny::Tiny;
use basics::refusal::{Layer, Reason, Refusal};
use lines::judge::judge;
use std::io;

// Prints the verdict on a line.
pub(crate) fn tell(rt: HostRuntime, what: &str, verdict: Result<usize, Refusal>) -> io::Result<()> {
    match verdict {
        Ok(j) => println!(rt; "{what}: accepted, layout {j}"),
        Err(e) => println!(rt; "{what}: {e}"),
    }
}

const SHORT_LINES: [(&str, &[u8]); 13] = [
    ("DKK 175.25", b"UBT99900000000000017525DKK"),
    ("amount zero", b"UBT99900000000000000000DKK"),
    ("small letter", b"UBT99900000000000017525DkK"),
    ("one byte short", b"UBT99900000000000017525DK"),
    ("one byte over", b"UBT99900000000000017525DKKX"),
    ("no bytes", b""),
    ("UBT alone", b"UBT"),
    ("unknown digits", b"UBT99902000000000017525DKK"),
    ("no digits", b"UBT9990x000000000017525DKK"),
    ("not UBT", b"UBX99900000000000017525DKK"),
    ("unknown digits and not UBT", b"XXX00000"),
    ("a blank in the amount", b"UBT99900 00000000017525DKK"),
    ("a CR in the line", b"UBT9990000000000001752\rDKK"),
];

const BLOCKS: [(&str, &[u8]); 8] = [
    ("count 03", b"UBT99901000000000017525DKK03"),
    ("count 0x", b"UBT99901000000000017525DKK0x"),
    ("count cut", b"UBT99901000000000017525DKK0"),
    ("count 00", b"UBT99901000000000017525DKK00"),
    (
        "count 02 and 69 bytes",
        b"UBT99901000000000017525DKK02Thirty-five bytes of text, no more.Thirty-four bytes of text, no more",
    ),
    (
        "count 01 and 35 bytes",
        b"UBT99901000000000017525DKK01Thirty-five bytes of text, no more.",
    ),
    (
        "count 01 and 36 bytes",
        b"UBT99901000000000017525DKK01Thirty-five bytes of text, no more.!",
    ),
    (
        "count 01 and blanks",
        b"UBT99901000000000017525DKK01                                   ",
    ),
];

fn tell_lines(rt: HostRuntime, lines: &[(&str, &[u8])]) -> io::Result<()> {
    for (what, line) in lines {
        tell(rt, what, judge(&Tiny, line))?;
    }
    Ok(())
}

pub(crate) fn short_lines(rt: HostRuntime) -> io::Result<()> {
    tell_lines(rt, &SHORT_LINES)
}

pub(crate) fn blocks(rt: HostRuntime) -> io::Result<()> {
    tell_lines(rt, &BLOCKS)
}

const LINE: [u8; 63] = *b"UBT99901000000000017525DKK01Thirty-five bytes of text, no more.";

// The verdict on the line with this byte as the first of its block's line.
fn verdict_with(b: u8) -> Result<usize, Refusal> {
    let mut line = LINE;
    line[28] = b;
    judge(&Tiny, &line)
}

// The verdict that the rules give: each text byte is allowed there, and no other.
fn verdict_by_rule(b: u8) -> Result<usize, Refusal> {
    match b {
        32..=126 | 160..=255 => Ok(2),
        _ => Err(
            Refusal::new(Reason::ForbiddenByte, Layer::Lines)
                .in_field(4)
                .at_byte(29),
        ),
    }
}

// Every byte as the first of a block's line.
pub(crate) fn text_bytes(rt: HostRuntime) -> io::Result<()> {
    let allowed = (0..=255u8).filter(|b| verdict_with(*b).is_ok()).count();
    let wrong = (0..=255u8)
        .filter(|b| verdict_with(*b) != verdict_by_rule(*b))
        .count();
    println!(rt; "text bytes: {allowed} of 256 allowed, {wrong} wrong")
}

// Whether the line ends early, behind its first n bytes.
fn ends_early(verdict: Result<usize, Refusal>, n: usize) -> bool {
    verdict.is_err_and(|e| e.reason == Reason::LineEndsEarly && e.byte.checked_sub(1) == Some(n))
}

// Every shorter beginning of a line is refused with 11, behind its last byte.
pub(crate) fn prefixes(rt: HostRuntime) -> io::Result<()> {
    let refused = (0..LINE.len())
        .filter(|n| ends_early(judge(&Tiny, &LINE[..*n]), *n))
        .count();
    println!(rt; "beginnings of a line of 63 bytes: {refused} refused with 11")
}
