//! The records of a day file: one byte of kind, then a body whose length the kind fixes.
//! Numbers have their lowest byte first.
//!
//! `reader::check` may refuse; what it passes is read without a refusal by `WholeRecord::read`.
//! `reader::next` is the two in one.
#![tactic(auto)]

pub mod reader;
pub mod record;
#[cfg(test)]
mod tests;

/// The most bytes that a day file has.
pub const FILE_LIMIT: usize = 16_384;
