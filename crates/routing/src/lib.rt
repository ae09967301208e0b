//! Routing trees: which node sends to which, in how many slots of a round, and how far it is from the base station.
#![tactic(auto)]

pub mod fault;
pub mod link;
pub mod routes;
mod search;
mod tables;
