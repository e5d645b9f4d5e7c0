// The values of a record, and the rows that hold them.
#![tactic(auto)]

pub mod form;
pub mod row;
pub mod text;
