// Follows one payment from its bytes to the verdict, and then the same payment with one damaged
// byte. The payment is the first line of standard input.
#![tactic(auto)]

mod fields;
mod names;
mod own_set;
mod record_values;

use crate::fields::{extent, tell_value};
use crate::names::name_of;
use basics::refusal::Refusal;
use files::cut::line_end;
use layouts::built_in::BuiltIn;
use layouts::fields::fields_of;
use lines::judge::judge;
use std::io;
use std::io::Read;

// Every field of the line with its first place and what stands there.
fn tell_fields(rt: HostRuntime, j: usize, line: &[u8]) -> io::Result<()> {
    // A loop and no chain: the place moves on by each field's width.
    let mut place = 0;
    for (k, f) in fields_of(&BuiltIn, j).enumerate() {
        let rest = &line[place..];
        let width = extent(f, rest).min(rest.len());
        print!(rt;
            "Field {}, {}, from place {}, width {width}:",
            k + 1,
            name_of(j, k),
            place + 1
        )?;
        tell_value(rt, f, place, &rest[..width])?;
        place += width;
    }
    println!(rt; "The fields end with byte {place}, and so does the line.")
}

// The place of a refusal without its line, since a single line is judged.
pub(crate) fn tell_refusal(rt: HostRuntime, e: Refusal) -> io::Result<()> {
    println!(rt;
        "It is refused: number {}, layer {}, field {}, byte {}.",
        e.reason.number(),
        e.layer.number(),
        e.field,
        e.byte
    )
}

// The verdict on a line, with its fields where it is accepted.
fn tell_line(rt: HostRuntime, line: &[u8]) -> io::Result<()> {
    match judge(&BuiltIn, line) {
        Ok(j) => {
            println!(rt; "It is accepted: it belongs to layout {j} of the built-in set.")?;
            tell_fields(rt, j, line)
        }
        Err(e) => tell_refusal(rt, e),
    }
}

fn main(rt: HostRuntime) -> io::Result<()> {
    let mut line = Vec::new(rt.alloc());
    rt.stdin().read_to_end(&mut line)?;
    let Some(end) = line_end(&line) else {
        return println!(rt; "There is no line that CR LF ends.");
    };
    println!(rt; "A payment came in: a line of {end} bytes.")?;
    line.truncate(end);
    tell_line(rt, &line)?;
    // In place, since a copy would take the memory of the line once more. D is then put there, whatever
    // stood there, so what follows tells of a payment in a currency of D and two more letters.
    if line.len() > 60 {
        println!(rt; "The same payment with byte 61 damaged, d for D:")?;
        line[60] = b'd';
        tell_line(rt, &line)?;
        line[60] = b'D';
    }
    record_values::change_the_amount(rt, &line)?;
    own_set::judge_with_an_own_set(rt)
}
