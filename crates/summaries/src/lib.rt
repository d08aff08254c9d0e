//! The record of an operation, from what the clocks count of its members.
#![tactic(auto)]

mod members;
mod rows;
mod summary;
mod trace;

pub use members::{Members, members_at};
pub use rows::write_row;
pub use summary::summarize;
pub use trace::Trace;
