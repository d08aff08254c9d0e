//! The trait of a logical clock, and what every make of one has in common.
#![tactic(auto)]

ghost use Rattle.std.specs.Prelude.{◌≡◌, not, ◌&&◌, nat_lt};
ghost use Rattle.causality.specs.Entries.{is, at_either};
ghost use Rattle.causality.specs.Limits.{is_node};
ghost use Rattle.causality.specs.Traces.{node_of, partner_of};
ghost use Rattle.clock.specs.Meaning.{Meaning, blank, begins, begun, if_given, admits, taken, number, counted, found, Own, Through, Earliest, NoHigher};
ghost use Rattle.clock.specs.Takes.{MeaningsGrow, MeaningsAnswer, MeaningsLawful, CountsAreChains};

use causality::Event;
pub use causality::{MAX_NODES, NODES};

/// The most entries of a clock: one for each event of a trace.
pub const MAX_ENTRIES: u16 = causality::MAX_EVENTS;
/// How many entries a clock keeps room for.
pub const ENTRIES: usize = causality::EVENTS;

/// An entry that a clock is asked to take: its node, the second node of a meet, and the entry that it follows by a message.
#[derive(Clone, Copy, PartialEq, Eq, Debug, Default)]
pub struct NewEntry {
    pub node: u16,
    pub partner: Option<u16>,
    pub prior: Option<u16>,
}

/// What comes just before an entry, beside the one that it follows by a message: the latest entry at its node, and the latest at
/// its partner.
#[derive(Clone, Copy, PartialEq, Eq, Debug, Default)]
pub struct Predecessors {
    pub own: Option<u16>,
    pub other: Option<u16>,
}

/// A logical clock: nodes counted from 1, and entries counted from 0, each at one node or two, with its causal past.
pub trait Clock: Sized {
    /// What the clock holds: the number of its nodes, and its entries.
    ghost means: { Self → Meaning };

    /// A clock of one node and no entries.
    fn new() -> Self
        ensures { means result ≡ blank 1 };

    /// Sets n nodes and no entries. Refuses exactly if n is not 1 to 16.
    fn begin(&mut self, n: u16) -> bool
        ensures after { means self.new ≡ begun (means self.old) n }
        ensures value { result ≡ begins n };

    /// Appends an entry and answers its number. Its past is itself, and the pasts of the latest entry at its node, of the
    /// latest at its partner and of its prior, where these exist or are given. Refuses exactly if 512 entries are held, the
    /// node or a given partner is no node, the two are equal, or a given prior is not held.
    fn take(&mut self, entry: NewEntry) -> Option<u16>
        ensures after { means self.new ≡ taken (means self.old) entry.node entry.partner entry.prior }
        ensures value { result ≡ number (means self.old) entry.node entry.partner entry.prior };

    /// How many entries at node i lie in the past of entry e. Absent exactly if e is not held or i is no node.
    fn count(&self, e: u16, i: u16) -> Option<u16>
        ensures { result ≡ counted (means self.now) e i };

    /// The number of the k-th entry at node i, from 1. Absent exactly if i is no node or holds no k-th entry.
    fn at(&self, i: u16, k: u16) -> Option<u16>
        ensures { result ≡ found (means self.now) i k };

    /// An entry lies in its own past.
    ghost own: { (x : Self) → Own (means x) };

    /// The past of anything in a past is part of that past.
    ghost through: { (x : Self) → Through (means x) };

    /// The entries of one node in a past are that node's earliest.
    ghost earliest: { (x : Self) → Earliest (means x) };

    /// No past holds a higher number than its own entry's.
    ghost no_higher: { (x : Self) → NoHigher (means x) };
}

impl NewEntry {
    /// The entry of an event, which follows entry `prior` by a message if that is given.
    pub fn of(event: Event, prior: Option<u16>) -> NewEntry
        ensures node { result.node ≡ node_of event }
        ensures partner { result.partner ≡ partner_of event }
        ensures prior { result.prior ≡ prior }
    {
        NewEntry {
            node: event.node(),
            partner: event.partner(),
            prior,
        }
    }

    /// Whether it stands at node i.
    pub fn stands(self, i: u16) -> bool
        ensures { result ≡ at_either self.node self.partner i }
    {
        match self.partner {
            None => self.node == i,
            Some(partner) => self.node == i || partner == i,
        }
    }
}

/// Whether a clock of so many nodes and entries accepts an entry.
pub fn admits(nodes: u16, len: u16, entry: NewEntry) -> bool
    ensures { result ≡ admits nodes len entry.node entry.partner entry.prior }
{
    len < MAX_ENTRIES
        && is_node(nodes, entry.node)
        && is_partner(nodes, entry.node, entry.partner)
        && entry.prior.is_none_or(|e| e < len)
}

/// Whether a clock of so many nodes has node i.
pub fn is_node(nodes: u16, i: u16) -> bool
    ensures { result ≡ is_node nodes i }
{
    (1..=nodes).contains(&i)
}

/// Whether a clock of so many nodes and entries holds entry e and has node i.
pub fn knows(nodes: u16, len: u16, e: u16, i: u16) -> bool
    ensures { result ≡ (nat_lt e len && is_node nodes i) }
{
    e < len && is_node(nodes, i)
}

fn is_partner(nodes: u16, a: u16, b: Option<u16>) -> bool
    ensures { result ≡ (if_given (is_node nodes) b && not (is b a)) }
{
    b.is_none_or(|b| is_node(nodes, b) && b != a)
}

/// An accepted take adds exactly its entry.
pub fn meanings_grow()
    ensures { MeaningsGrow }
{}

/// Counts and numbers are the timestamps and the places of the entries taken.
pub fn meanings_answer()
    ensures { MeaningsAnswer }
{}

/// Whatever was taken, the meaning keeps the four laws.
pub fn meanings_lawful()
    ensures { MeaningsLawful }
{}

/// The k-th entry of a node is within a count exactly if it is that entry or a chain of edges leads from it.
pub fn counts_are_chains()
    ensures { CountsAreChains }
{}
