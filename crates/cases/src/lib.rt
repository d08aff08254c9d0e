//! Cases that are run: clocks, traces and job texts, on every make of clock.
#![tactic(auto)]

#[cfg(test)]
mod clocks;
#[cfg(test)]
mod texts;
#[cfg(test)]
mod traces;
