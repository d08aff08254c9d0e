//! The job text: its lines one by one, and the check of a whole text.
#![tactic(auto)]

mod lines;
mod scan;

pub use lines::{Reader, line_end};
pub use scan::{Fault, MAX_BYTES, MAX_LINES, check_text, one_verdict};
