// Judging one line against any layout set.
#![tactic(auto)]

mod field_check;
pub mod judge;
mod part;
pub mod rules;
