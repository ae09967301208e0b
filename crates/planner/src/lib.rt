//! The planner: from a routing tree to steps of transmissions that do not conflict.
#![tactic(auto)]

pub mod candidate;
pub mod fault;
pub mod planner;
mod ready;
mod site;
mod step;
