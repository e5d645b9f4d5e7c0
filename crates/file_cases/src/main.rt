// Runs whole files whose verdicts, totals and differences the rules settle, and prints what came.
// The expected output beside this program was written from the rules.
#![tactic(auto)]

use files::difference::difference;
use files::judge_file::judge_file;
use files::total::total;
use std::io;
use strips::loaded_set::LoadedSet;

// The verdict on a file, and its total in DKK. `rt` and the set are parameters here and below: a type
// of both would only be passed in their place.
fn tell(rt: HostRuntime, set: &LoadedSet, what: &str, bytes: &[u8]) -> io::Result<()> {
    match judge_file(set, bytes) {
        Ok(n) => println!(rt; "{what}: {n} records")?,
        Err(e) => println!(rt; "{what}: {e}")?,
    }
    match total(set, bytes, b"DKK") {
        Ok(sum) => println!(rt; "  in DKK {sum}"),
        Err(e) => println!(rt; "  in DKK {e}"),
    }
}

fn tell_total(rt: HostRuntime, set: &LoadedSet, currency: &[u8]) -> io::Result<()> {
    match total(set, EUR, currency) {
        Ok(sum) => println!(rt; "total: {sum}"),
        Err(e) => println!(rt; " {e}"),
    }
}

fn tell_difference(
    rt: HostRuntime,
    set: &LoadedSet,
    first: &[u8],
    second: &[u8],
    currency: &[u8],
) -> io::Result<()> {
    match difference(set, first, second, currency) {
        Ok(n) => println!(rt; "difference: {n}"),
        Err(e) => println!(rt; "difference: file {}, {}", e.file as u8, e.refusal),
    }
}

const DKK: &[u8] = b"UBT99900000000000017525DKK\r\n";

const EUR: &[u8] = b"UBT99900000000000020000EUR\r\n";

const MOST: &[u8] = b"UBT99900999999999999999DKK\r\n";

const SHORT_FILES: [(&str, &[u8]); 8] = [
    ("no lines", b""),
    ("one line", DKK),
    (
        "two currencies",
        b"UBT99900000000000017525DKK\r\nUBT99900000000000020000EUR\r\n",
    ),
    (
        "an unended last line that is bad too",
        b"UBT99900000000000017525DKK\r\nUBT",
    ),
    ("CR CR LF", b"UBT99900000000000017525DKK\r\r\n"),
    ("LF CR", b"UBT99900000000000017525DKK\n\r"),
    (
        "the second line is bad",
        b"UBT99900000000000017525DKK\r\nUBT99900000000000000000DKK\r\nUBT\r\n",
    ),
    ("an empty line", b"\r\n"),
];

fn short_files(rt: HostRuntime, set: &LoadedSet) -> io::Result<()> {
    for (what, bytes) in SHORT_FILES {
        tell(rt, set, what, bytes)?;
    }
    Ok(())
}

fn long_files(rt: HostRuntime, set: &LoadedSet) -> io::Result<()> {
    let most = MOST.repeat(rt.alloc(), 1200)?;
    tell(rt, set, "1,200 lines of the largest amount", &most)?;
    let over = MOST.repeat(rt.alloc(), 1201)?;
    tell(rt, set, "1,201 lines", &over)?;
    let mut unended = DKK.repeat(rt.alloc(), 1200)?;
    unended.push(b'U')?;
    tell(rt, set, "1,200 lines and a byte", &unended)?;
    let mut last = DKK.repeat(rt.alloc(), 1199)?;
    last.extend_from_slice(b"UBT\r\n")?;
    tell(rt, set, "the last of 1,200 lines is bad", &last)
}

const CURRENCIES: [&[u8]; 7] = [b"DKK", b"EUR", b"USD", b"dkk", b"DK", b"DKKK", b""];

fn currencies(rt: HostRuntime, set: &LoadedSet) -> io::Result<()> {
    for currency in CURRENCIES {
        tell_total(rt, set, currency)?;
    }
    tell_difference(rt, set, EUR, DKK, b"EUR")?;
    tell_difference(rt, set, DKK, MOST, b"DKK")?;
    tell_difference(rt, set, b"UBT", b"\r\n", b"DKK")?;
    tell_difference(rt, set, DKK, b"\r\n", b"DKK")?;
    tell_difference(rt, set, b"UBT", b"\r\n", b"dkk")
}

fn main(rt: HostRuntime) -> io::Result<()> {
    let mut set = LoadedSet::new(rt.alloc())?;
    if set.load(b"U99900PV").is_err() {
        return println!(rt; "the set is not loaded");
    }
    short_files(rt, &set)?;
    long_files(rt, &set)?;
    currencies(rt, &set)
}
