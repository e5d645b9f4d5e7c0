// Which records, and which lists of rows, are equal.
#![tactic(auto)]

mod fields;
pub mod records;
pub mod rows;
mod same;
