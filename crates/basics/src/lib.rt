// What every layer stands on: refusals, rows over lent memory, bytes, numbers in digits, texts,
// days, amounts and currencies.
#![tactic(auto)]

pub mod bytes;
pub mod calendar;
pub mod decimal;
pub mod money;
pub mod refusal;
pub mod rows;
pub mod text;
