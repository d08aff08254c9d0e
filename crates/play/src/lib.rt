//! Plays a job text on a correlator: reads its lines, makes the calls and writes the lines of the answer.
#![tactic(auto)]

mod reports;
mod text;

pub use reports::{Report, answer};
pub use text::{LINE_ROOM, MAX_OUTPUT, PlayRefusal, correlate, play};
