// A scheduler with no cleverness, straight from docs/RULES.md and docs/DAYFILE.md. It shares the type of a record with
// the product, and nothing else.

pub mod fault;
pub mod lister;
pub mod page;
pub mod reading;
pub mod scheduler;
pub mod site;
pub mod steps;
pub mod table;
