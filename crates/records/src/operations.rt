//! The operations of a trace.

use causality::MAX_EVENTS;
use gathering::Row;
use std::marker::Model;
use table::Keyed;

pub mod methods;

/// The most operations that are held.
pub const MAX_OPERATIONS: usize = history::MAX_OPERATIONS;
/// The most members of an operation.
pub const MAX_MEMBERS: usize = MAX_EVENTS as usize;

/// An operation: its packed name, its members, its first and last index at each node, and its four cuts.
#[derive(Clone, Copy)]
pub struct Operation {
    pub name: u64,
    /// How many members there are.
    pub len: u16,
    /// The numbers of the member events; the first `len` count.
    pub members: [u16; MAX_MEMBERS],
    /// The index of the first member at each node, 0 where no member stands.
    pub first: Row,
    /// The index of the last member at each node, 0 where no member stands.
    pub last: Row,
    pub cuts: Cuts,
}

/// The four cuts of an operation: for each node, how many of its events lie in the cut, or the index of the first event
/// reached.
#[derive(Clone, Copy)]
pub struct Cuts {
    pub joint_past: Row,
    pub whole_past: Row,
    pub first_reach: Row,
    pub joint_reach: Row,
}

/// Which of the four cuts, with its number.
#[derive(Clone, Copy, PartialEq, Eq, Debug)]
pub enum Cut {
    /// 1: the least forward count of a member at each node.
    JointPast,
    /// 2: the greatest.
    WholePast,
    /// 3: the index of the first event that some member comes to.
    FirstReach,
    /// 4: the index of the first event that every member comes to.
    JointReach,
}

/// A number that no cut has.
#[derive(Clone, Copy, PartialEq, Eq, Debug)]
pub struct UnknownCut(pub u16);

impl Keyed for Operation {
    type Key = u64;

    ghost key_of = { λ o. o.name };

    fn key(&self) -> u64 {
        self.name
    }
}

/// The operations of a trace. To its users it is the list of them, by rising name.
#[derive(Drop)]
pub struct Operations {
    records: [Operation; MAX_OPERATIONS],
    len: usize,
}

impl Model for Operations {
    ghost use Rattle.std.specs.Ordering.{nat_cmp};
    ghost use Rattle.std.specs.Prelude.{◌≡◌, ◌≤◌, List, length, take};
    ghost use Rattle.table.specs.Tables.{Rising};
    ghost use Rattle.records.specs.declared.operations.Operation.{Operation};

    ghost Value = { List Operation };

    ghost view = { λ t. take t.len t.records };

    ghost invariant = { λ t. (length t.records ≡ 32) × (t.len ≤ 32) × Rising nat_cmp (λ (o : Operation). o.name) (take t.len t.records) };
}
