// Day files by a fixed pseudo-random generator. samples/compare_counts.py makes the same files.

pub mod day;
pub mod encoding;
pub mod file;
pub mod site;
pub mod sound;
pub mod source;
