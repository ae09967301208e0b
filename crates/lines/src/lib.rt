//! The lines of a listing: a word and decimal numbers, written into a list of bytes that the caller lends.
#![tactic(auto)]

pub mod line;
pub mod writer;
