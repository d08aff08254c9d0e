//! The trace of a job, as the event calls told it.

ghost use Rattle.std.specs.Prelude.{◌≤◌, length};

use causality::{EVENTS, Event};
use history::Stage;
use logs::Log;
use records::Messages;

pub mod checks;
pub mod events;

/// A trace: its stage and nodes, its events from the oldest on, and the messages that these sent.
#[derive(Drop)]
pub struct Trace {
    pub stage: Stage,
    pub nodes: u16,
    pub events: Log<Event, EVENTS>,
    pub sent: Messages,
    ghost fewer: { length sent ≤ length events },
}
