//! The rules of the engine: its plain types, and what holds of every run.
#![tactic(auto)]

pub mod call;
pub mod phase;
pub mod refusal;
pub mod round;
pub mod row;
pub mod theorem;
