// What a call answered, and how the draft stands after it.
use crate::desk::Desk;
use crate::trouble::Trouble;
use basics::money::Hundredths;
use basics::refusal::Refusal;
use files::cut::count_lines;
use files::total::total;
use layouts::built_in::BuiltIn;
use std::io;

// With a word beside each number, for one who reads a sample.
pub(crate) fn tell_refusal(rt: HostRuntime, e: Refusal) -> io::Result<()> {
    println!(rt;
        "    It is refused: number {}, layer {}, line {}, field {}, byte {}.",
        e.reason.number(),
        e.layer.number(),
        e.line,
        e.field,
        e.byte
    )
}

// The draft's lines and bytes, and its totals.
pub(crate) fn tell_draft(rt: HostRuntime, desk: &Desk) -> Result<(), Trouble> {
    let file = desk.show()?;
    println!(rt;
        "    The draft has {} lines in {} bytes, and pays {} DKK and {} EUR.",
        count_lines(file).lines,
        file.len(),
        Hundredths(total(&BuiltIn, file, b"DKK")?),
        Hundredths(total(&BuiltIn, file, b"EUR")?)
    )?;
    Ok(())
}

// The answer of a call, and the draft after it.
pub(crate) fn tell_answer(
    rt: HostRuntime,
    desk: &Desk,
    answer: Result<(), Refusal>,
) -> Result<(), Trouble> {
    match answer {
        Ok(()) => println!(rt; "    It is accepted.")?,
        Err(e) => tell_refusal(rt, e)?,
    }
    tell_draft(rt, desk)
}
