//! The history of a correlator: what its calls told it, worked out from their arguments alone.
//!
//! The definitions are in `specs/`: `History.antt` has the state, `Calls.antt` the calls with their refusals and what an
//! accepted call leaves.
#![tactic(auto)]

ghost use Rattle.history.specs.Lawful.{HistoriesLawful};
ghost use Rattle.history.specs.Members.{HistoriesHold};

pub mod refusal;

pub use refusal::Refusal;

/// The most operations of a trace.
pub const MAX_OPERATIONS: usize = 32;
/// The most places in a list of places.
pub const MAX_PLACES: usize = 512;
/// The most bytes of an operation's name.
pub const MAX_NAME: usize = 8;

/// Whether there is a trace, and whether events may still come.
#[derive(Clone, Copy, PartialEq, Eq, Debug)]
pub enum Stage {
    /// No trace was started yet.
    Idle,
    /// The trace takes events.
    Open,
    /// The trace is whole: operations may be gathered and related.
    Closed,
}

/// Whatever the calls, refused or not, each leaves a lawful history.
pub fn histories_lawful()
    ensures { HistoriesLawful }
{}

/// Whatever the calls, refused or not, each operation has members, and they are events of the trace.
pub fn histories_hold()
    ensures { HistoriesHold }
{}
