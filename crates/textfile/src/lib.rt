//! Whole day files as text, and back: `packing::pack` makes the day file of a text, `printing::print_file` the text
//! of a day file. What `print_file` writes packs to the file that it was given.
#![tactic(auto)]

pub mod fault;
mod lines;
pub mod packing;
pub mod printing;
