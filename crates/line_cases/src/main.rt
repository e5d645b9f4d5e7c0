// Runs lines, files and reports whose answers the rules settle, and prints what came. The expected
// output beside this program was written from the rules.
#![tactic(auto)]

mod built_lines;
mod cases;
mod record_values;
mod tiny;
mod whole_files;

use std::io;

fn main(rt: HostRuntime) -> io::Result<()> {
    cases::short_lines(rt)?;
    cases::blocks(rt)?;
    cases::text_bytes(rt)?;
    cases::prefixes(rt)?;
    built_lines::smallest_and_largest(rt)?;
    whole_files::reports(rt)?;
    whole_files::surveys(rt)?;
    record_values::rows_of_a_short_line(rt)?;
    record_values::refused_rows(rt)?;
    record_values::refused_texts(rt)?;
    record_values::refused_blocks(rt)?;
    record_values::blank_line_in_a_block(rt)?;
    record_values::equality(rt)?;
    record_values::round_trips(rt)
}
