//! Happened-before between the events of a trace: the shared plain types, and the theorems.
//!
//! The definitions and statements are in `specs/`: start with `Traces.antt`. Each theorem is the contract of a function in
//! `theorems`, so that the crate is proved only if the theorem is.
#![tactic(auto)]

ghost use Rattle.causality.specs.Limits.{is_relation, relation_number};
ghost use Rattle.causality.specs.Traces.{node_of, partner_of, stands};
ghost use Rattle.std.specs.Prelude.{◌≡◌, ◌-◌, true, false, MatchResult};

pub mod theorems;

/// The most nodes of a trace.
pub const MAX_NODES: u16 = 16;
/// The most events of a trace.
pub const MAX_EVENTS: u16 = 512;
/// How many nodes there is room for.
pub const NODES: usize = MAX_NODES as usize;
/// How many events there is room for.
pub const EVENTS: usize = MAX_EVENTS as usize;

/// The k-th event of a node's column, counted from 1: `node.index`.
#[derive(Clone, Copy, PartialEq, Eq, Debug)]
pub struct Place {
    pub node: u16,
    pub index: u16,
}

/// What a trace records: an event at one node, or a meet at two.
#[derive(Clone, Copy, PartialEq, Eq, Debug)]
pub enum Event {
    /// An event of one node alone.
    Local(u16),
    /// A node sends a message of this number.
    Send(u16, u16),
    /// A node receives the message of this number.
    Receive(u16, u16),
    /// One synchronous event of two nodes.
    Meet(u16, u16),
}

impl Default for Event {
    fn default() -> Event {
        Event::Local(0)
    }
}

impl Event {
    /// The node of an event; of a meet, the first of its two.
    pub fn node(self) -> u16
        ensures { result ≡ node_of self }
    {
        match self {
            Event::Local(a) | Event::Send(a, _) | Event::Receive(a, _) | Event::Meet(a, _) => a,
        }
    }

    /// The second node of a meet.
    pub fn partner(self) -> Option<u16>
        ensures { result ≡ partner_of self }
    {
        match self {
            Event::Local(_) | Event::Send(_, _) | Event::Receive(_, _) => None,
            Event::Meet(_, b) => Some(b),
        }
    }

    /// Whether the event stands at node i.
    pub fn stands(self, i: u16) -> bool
        ensures { result ≡ stands self i }
    {
        self.node() == i || self.partner() == Some(i)
    }
}

/// The number that an event has when the events of a trace are numbered from the last.
pub fn from_last(events: u16, number: u16) -> u16
    ensures { result ≡ events - 1 - number }
{
    events.saturating_sub(1).saturating_sub(number)
}

/// How one event stands to another in the causal order.
#[derive(Clone, Copy, PartialEq, Eq, Debug)]
pub enum CausalOrder {
    Before,
    After,
    Same,
    Concurrent,
}

/// A relation between two sets of events X and Y, with its number. "x to y" means that x is y or happened before y.
#[derive(Clone, Copy, PartialEq, Eq, Debug)]
pub enum Relation {
    /// every x to every y.
    R1 = 1,
    /// every x to some y.
    R2 = 2,
    /// some one y has every x to it.
    R2P = 3,
    /// some one x goes to every y.
    R3 = 4,
    /// every y has some x to it.
    R3P = 5,
    /// some x to some y.
    R4 = 6,
}

impl From<Relation> for u16 {
    ghost from_gives = { λ r n. n ≡ relation_number r };

    fn from(relation: Relation) -> u16 {
        relation as u16
    }
}

/// A number that no relation has.
#[derive(Clone, Copy, PartialEq, Eq, Debug)]
pub struct UnknownRelation(pub u16);

impl TryFrom<u16> for Relation {
    type Error = UnknownRelation;

    ghost try_from_gives = { λ n r. MatchResult r (λ x. (is_relation n ≡ true) × (relation_number x ≡ n)) (λ e. (is_relation n ≡ false) × (e.0 ≡ n)) };

    fn try_from(number: u16) -> Result<Relation, UnknownRelation> {
        match number {
            1 => Ok(Relation::R1),
            2 => Ok(Relation::R2),
            3 => Ok(Relation::R2P),
            4 => Ok(Relation::R3),
            5 => Ok(Relation::R3P),
            6 => Ok(Relation::R4),
            _ => Err(UnknownRelation(number)),
        }
    }
}
