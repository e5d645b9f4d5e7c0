// Fields, layouts and layout sets.
#![tactic(auto)]

pub mod built_in;
pub mod field;
pub mod fields;
pub mod set;
