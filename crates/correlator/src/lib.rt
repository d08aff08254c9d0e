//! The correlator: takes the trace of one job, event by event, and answers questions of order over any two clocks.
#![tactic(auto)]

pub mod state;
mod trace;

pub use state::Correlator;
