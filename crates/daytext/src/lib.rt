//! The text form of a day file: one record a line, a word and its numbers in decimal.
//!
//! `encoder::encode` gives the bytes of a record, `printer::print` its line of text, and `parser::parse` the record
//! of a line. Reading the bytes and parsing the line give the record back.
#![tactic(auto)]

pub mod encoder;
pub mod fault;
mod field;
mod keyword;
pub mod parser;
pub mod printer;
pub mod theorem;
mod words;
