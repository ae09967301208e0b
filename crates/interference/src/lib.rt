//! Interference models: how many nodes a site has, and which transmissions conflict.
#![tactic(auto)]

pub mod bits;
pub mod fault;
pub mod graph;
pub mod grid;
pub mod model;
pub mod position;
#[cfg(test)]
mod tests;
pub mod transmission;
