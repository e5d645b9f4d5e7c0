// Surveys of files with bad lines, and their reports.
#![tactic(auto)]

pub mod fault_row;
pub mod report;
pub mod survey;
mod writing;
