// Layout sets that are written in strips.
#![tactic(auto)]

mod kind;
pub mod load;
pub mod loaded_set;
mod open_layout;
mod reader;
pub mod round_trip;
pub mod write;
