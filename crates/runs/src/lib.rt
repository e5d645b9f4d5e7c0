// Lists of calls on a draft, and the law over them.
#![tactic(auto)]

pub mod call;
pub mod replay;
pub mod rewind;
