// Files: cutting bytes into lines, judging a file whole, totals and differences.
#![tactic(auto)]

pub mod cut;
pub mod difference;
pub mod judge_file;
pub mod total;
