//! The messages that were sent.

use causality::MAX_EVENTS;
use std::marker::Model;
use table::Keyed;

pub mod methods;

/// The most messages that are held: one for each event of a trace.
pub const MAX_MESSAGES: usize = MAX_EVENTS as usize;

/// A message that was sent: its number, the sender, the event that sent it and the event that received it, if any.
#[derive(Clone, Copy, Debug)]
pub struct Sent {
    pub message: u16,
    pub node: u16,
    pub event: u16,
    pub receipt: Option<u16>,
}

impl Keyed for Sent {
    type Key = u16;

    ghost key_of = { λ s. s.message };

    fn key(&self) -> u16 {
        self.message
    }
}

/// The messages of a trace. To its users it is the list of them, by rising number.
#[derive(Drop)]
pub struct Messages {
    records: [Sent; MAX_MESSAGES],
    len: usize,
}

impl Model for Messages {
    ghost use Rattle.std.specs.Ordering.{nat_cmp};
    ghost use Rattle.std.specs.Prelude.{◌≡◌, ◌≤◌, List, length, take};
    ghost use Rattle.table.specs.Tables.{Rising};
    ghost use Rattle.records.specs.declared.messages.Sent.{Sent};

    ghost Value = { List Sent };

    ghost view = { λ t. take t.len t.records };

    ghost invariant = { λ t. (length t.records ≡ 512) × (t.len ≤ 512) × Rising nat_cmp (λ (s : Sent). s.message) (take t.len t.records) };
}
