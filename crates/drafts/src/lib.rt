// Drafts: a file that is edited in lent memory, with undo, and sealed when it is done.
#![tactic(auto)]

mod calls;
pub mod draft;
mod moves;
mod refusals;
mod room;
pub mod sealed;
mod undo;
