//! Transmission plans: drafts and approved plans.
#![tactic(auto)]

pub mod approval;
pub mod approved;
pub mod draft;
pub mod fault;
mod judge;
mod layout;
mod placed;
mod shape;
mod spacing;
