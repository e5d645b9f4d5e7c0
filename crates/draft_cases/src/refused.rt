// Lines, deliveries and numbers that are refused.
use crate::desk::Desk;
use crate::sample::{BAD, DKK, TWO_LINES};
use runs::call::Call;
use std::alloc::{AllocError, Global};
use std::io;
use strips::loaded_set::LoadedSet;

const BAD_LINES: [(&str, &[u8]); 11] = [
    ("an empty line", b""),
    ("UBT", b"UBT"),
    ("a line cut in its amount", b"UBT9990000000000001752"),
    ("a line cut in its currency", b"UBT99900000000000017525DK"),
    ("an unknown record", b"UBT99901000000000017525DKK"),
    ("a record UBX", b"UBX99900000000000017525DKK"),
    ("a letter in the amount", b"UBT9990000000000001752xDKK"),
    ("small letters", b"UBT99900000000000017525dkk"),
    ("amount 0", b"UBT99900000000000000000DKK"),
    ("a byte left over", b"UBT99900000000000017525DKK "),
    ("a line and its CR LF", b"UBT99900000000000017525DKK\r\n"),
];

// Each of these bytes in the call that `call` makes of them.
pub(crate) fn each<'a, F: Fn(&'a [u8]) -> Call<'a>>(
    desk: &mut Desk<'_>,
    how: &str,
    cases: &[(&str, &'a [u8])],
    call: F,
) -> io::Result<()>
    requires { F.IsAlwaysCallable call }
{
    for (what, bytes) in cases {
        print!(desk.rt; "{how} ")?;
        desk.step(what, call(bytes))?;
    }
    Ok(())
}

// A delivery of a good line and another.
fn delivery_of(heap: Global, line: &[u8]) -> Result<Vec<u8>, AllocError> {
    let mut bytes = DKK.to_vec(heap)?;
    bytes.extend_from_slice(b"\r\n")?;
    bytes.extend_from_slice(line)?;
    bytes.extend_from_slice(b"\r\n")?;
    Ok(bytes)
}

// A delivery in which each of these lines is the second.
pub(crate) fn delivered(desk: &mut Desk<'_>, cases: &[(&str, &[u8])]) -> io::Result<()> {
    for (what, line) in cases {
        let delivery = delivery_of(desk.rt.alloc(), line)?;
        print!(desk.rt; "import with ")?;
        desk.step(what, Call::Import(&delivery))?;
    }
    Ok(())
}

const BAD_DELIVERIES: [(&str, &[u8]); 7] = [
    ("nothing", b""),
    ("an unended line", b"UBT99900000000000017525DKK"),
    (
        "a second line unended",
        b"UBT99900000000000017525DKK\r\nUBT99900000000000020000EUR",
    ),
    ("a bad line and an unended one", b"UBT\r\nUBT"),
    ("LF CR", b"UBT99900000000000017525DKK\n\r"),
    ("CR CR LF", b"UBT99900000000000017525DKK\r\r\n"),
    ("CR LF alone", b"\r\n"),
];

fn long_deliveries(desk: &mut Desk<'_>) -> io::Result<()> {
    let heap = desk.rt.alloc();
    let bad = b"UBT\r\n".repeat(heap, 1201)?;
    desk.step("import 1,201 bad lines", Call::Import(&bad))?;
    let mut good = b"UBT99900000000000017525DKK\r\n".repeat(heap, 1201)?;
    desk.step("import 1,201 lines", Call::Import(&good))?;
    good.push(b'U')?;
    desk.step("import 1,201 lines and a byte", Call::Import(&good))
}

const NUMBERS: [(&str, Call<'static>); 7] = [
    ("strike 0", Call::Strike(0)),
    ("strike 3", Call::Strike(3)),
    ("strike the largest", Call::Strike(usize::MAX)),
    ("replace 0", Call::Replace(0, DKK)),
    ("replace 3", Call::Replace(3, DKK)),
    ("replace the largest", Call::Replace(usize::MAX, DKK)),
    ("replace 3 by a bad line", Call::Replace(3, BAD)),
];

const OF_A_NEW_DRAFT: [(&str, Call<'static>); 3] = [
    ("strike 1", Call::Strike(1)),
    ("replace 1", Call::Replace(1, DKK)),
    ("undo", Call::Undo),
];

pub(crate) fn refused(rt: HostRuntime, set: &LoadedSet) -> io::Result<()> {
    // A draft of two lines, which has room for every change.
    let mut desk = Desk::new(rt, set, 140, 6, 80)?;
    let _ = desk.call(Call::Import(TWO_LINES));
    println!(rt; "Refused lines")?;
    each(&mut desk, "add", &BAD_LINES, Call::Add)?;
    each(
        &mut desk,
        "replace 2 by",
        &BAD_LINES,
        |line| Call::Replace(2, line),
    )?;
    println!(rt; "Refused deliveries")?;
    delivered(&mut desk, &BAD_LINES)?;
    each(&mut desk, "import", &BAD_DELIVERIES, Call::Import)?;
    long_deliveries(&mut desk)?;
    println!(rt; "Refused numbers")?;
    desk.steps(&NUMBERS)?;
    println!(rt; "Refused by a new draft")?;
    Desk::new(rt, set, 140, 6, 80)?.steps(&OF_A_NEW_DRAFT)?;
    println!(rt; "The draft that refused all this")?;
    desk.step("undo", Call::Undo)
}
