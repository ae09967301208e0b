//! The engine: booking, releasing and running queries over an approved plan.
#![tactic(auto)]

mod admission;
pub mod booking;
mod calls;
pub mod engine;
mod rows;
mod running;
mod starts;
pub mod state;
mod table;
pub mod terms;
mod trial;
mod waiting;
mod waits;
