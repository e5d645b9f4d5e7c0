// What changes of a draft are: where lines stand in a file, the rows that tell of changes, and the
// definitions and laws that the contracts of the draft's calls go by.
#![tactic(auto)]

pub mod change_row;
pub mod places;
