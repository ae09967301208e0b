//! The day listing: a day file in, the lines of its day out.
#![tactic(auto)]

mod calls;
mod day;
pub mod export;
pub mod listing;
mod page;
mod records;
pub mod stop;
pub mod survey;
