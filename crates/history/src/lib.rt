// What a list of calls on a draft comes to: the history of its files, the account of its amounts,
// and the law over every run. This crate has definitions and proofs alone.
#![tactic(auto)]
