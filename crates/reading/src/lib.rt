// Reading a line: its values, as rows.
#![tactic(auto)]

mod fields;
pub mod money;
mod parts;
pub mod read;
