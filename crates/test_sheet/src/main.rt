// The test sheet: for each row what the rules say, and what came. The last line counts them.
#![tactic(auto)]

mod blocks;
mod draft_calls;
mod long_files;
mod misreadings;
mod places;
mod records;
mod rules;
mod sheet;
mod verdict;

use sheet::Sheet;
use std::io;

fn main(rt: HostRuntime) -> io::Result<()> {
    let mut sheet = Sheet::new(rt);
    rules::rules(&mut sheet)?;
    blocks::blocks(&mut sheet)?;
    long_files::long_files(&mut sheet)?;
    draft_calls::draft_calls(&mut sheet)?;
    places::places(&mut sheet)?;
    misreadings::misreadings(&mut sheet)?;
    sheet.count()
}
