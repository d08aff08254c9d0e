//! The records of a trace in fixed memory, each kind an ordered table by its key.
#![tactic(auto)]

pub mod messages;
pub mod operations;

pub use messages::{Messages, Sent};
pub use operations::{Cut, Cuts, MAX_MEMBERS, MAX_OPERATIONS, Operation, Operations, UnknownCut};
