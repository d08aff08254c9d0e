//! The promise of the correlator, whole for the calls that there are, on a call that runs: two correlators on any four clocks,
//! each given any list of calls.
//!
//! `specs/Promise.antt` states it.
#![tactic(auto)]

mod requests;
mod runs;

pub use requests::{Answer, Lent, Request, Value};
pub use runs::{Short, perform, run, run_both};
