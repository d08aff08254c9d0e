//! The forms of a line of the job text, and the reader of one line.
#![tactic(auto)]

mod forms;

pub use forms::{Line, one_reading, read_line};
