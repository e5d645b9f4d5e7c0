// Which layouts are lawful.
#![tactic(auto)]

pub mod layout;
