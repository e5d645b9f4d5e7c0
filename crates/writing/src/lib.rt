// Writing rows as a line.
#![tactic(auto)]

mod check;
mod piece;
mod put;
mod size;
mod suits;
pub mod write;
