// Reads a file from standard input, judges it against the built-in set and prints the report.
#![tactic(auto)]

use edi4::{BuiltIn, report};
use std::io;
use std::io::{Read, Write};

// The longest report.
const MOST: usize = 4022;

fn main(rt: HostRuntime) -> io::Result<()> {
    let mut bytes = Vec::new(rt.alloc());
    rt.stdin().read_to_end(&mut bytes)?;
    let mut out = [0u8; MOST];
    // The room is as long as the longest report, so that no report is refused.
    let length = report(&BuiltIn, &bytes, &mut out).unwrap_or(0);
    rt.stdout().write_all(&out[..length])
}
