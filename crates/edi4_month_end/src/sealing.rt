// The draft is sealed, and the sealed file is shown.
use crate::desk::Desk;
use crate::records::tell_lines;
use crate::trouble::Trouble;
use basics::text::Shown;
use files::judge_file::judge_file;
use layouts::built_in::BuiltIn;
use reports::report::report;

// The longest report.
const MOST: usize = 4022;

fn tell_report(rt: HostRuntime, file: &[u8]) -> Result<(), Trouble> {
    let mut out = [0u8; MOST];
    let length = report(&BuiltIn, file, &mut out)?;
    print!(rt; "    Its report is: {}", Shown(&out[..length]))?;
    Ok(())
}

fn tell_file(rt: HostRuntime, file: &[u8]) -> Result<(), Trouble> {
    println!(rt; "    The sealed file has {} bytes.", file.len())?;
    let records = judge_file(&BuiltIn, file)?;
    println!(rt; "    It is accepted, with {records} records.")?;
    tell_report(rt, file)?;
    tell_lines(rt, file, records)
}

pub(crate) fn seal_the_draft(rt: HostRuntime, desk: Desk) -> Result<(), Trouble> {
    let Desk { draft, file, .. } = desk;
    let sealed = draft.seal()?;
    println!(rt; "The draft is sealed. The file is final now.")?;
    tell_file(rt, sealed.show(&file)?)
}
