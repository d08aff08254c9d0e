//! A clock that keeps of each entry only its nodes and its immediate predecessors, and walks back over them when asked.
#![tactic(auto)]

ghost use Rattle.std.specs.Prelude.{◌≡◌, ◌<◌, ◌≤◌, true, length, nat_lt, slice_index_or};
ghost use Rattle.std.specs.Option.{option_to_list};
ghost use Rattle.causality.specs.Entries.{at as timeline_at, stamp};
ghost use Rattle.causality.specs.Limits.{max_nodes, is_node};
ghost use Rattle.clock.specs.Meaning.{max_entries, blank, if_given};
ghost use Rattle.link_clock.specs.Links.{no_link, before, earlier, all_takes, links_mean, Kept, latest_of, Noted, marked, met, visited};
ghost use Rattle.clock.proofs.Takes.{meanings_lawful};

use clock::{Clock, ENTRIES, MAX_NODES, NODES, NewEntry, Predecessors, admits, is_node, knows};
use logs::Log;

/// An entry as it was taken, and what came just before it.
#[derive(Clone, Copy, Default)]
struct Link {
    entry: NewEntry,
    before: Predecessors,
}

/// A clock that keeps each entry with its immediate predecessors, and the latest entry of each node.
#[derive(Drop)]
pub struct LinkClock {
    nodes: u16,
    links: Log<Link, ENTRIES>,
    latest: [Option<u16>; NODES],
    ghost long: { length latest ≡ max_nodes },
    ghost within: { (length links ≤ max_entries) × (nodes ≤ max_nodes) },
    ghost kept: { Kept links latest },
}

/// Entry e is now the latest at its nodes.
fn note(latest: &mut [Option<u16>; NODES], entry: NewEntry, e: u16)
    requires node { is_node max_nodes entry.node ≡ true }
    requires partner { if_given (is_node max_nodes) entry.partner ≡ true }
    ensures noted { Noted latest.old entry.node entry.partner e latest.new }
    ensures long { length latest.new ≡ length latest.old }
{
    latest[entry.node as usize - 1] = Some(e);
    if let Some(partner) = entry.partner {
        latest[partner as usize - 1] = Some(e);
    }
}

fn mark(marks: &mut [bool; ENTRIES], x: Option<u16>)
    requires { if_given (λ y. nat_lt y max_entries) x ≡ true }
    ensures { marks.new ≡ marked marks.old (option_to_list x) }
{
    if let Some(x) = x {
        marks[x as usize] = true;
    }
}

/// Marks the immediate predecessors of an entry.
fn mark_before(marks: &mut [bool; ENTRIES], link: Link)
    requires { earlier max_entries link ≡ true }
    ensures { marks.new ≡ marked marks.old (before link) }
{
    mark(marks, link.before.own);
    mark(marks, link.before.other);
    mark(marks, link.entry.prior);
}

impl LinkClock {
    /// Sets n nodes and no entries.
    fn clear(&mut self, n: u16)
        requires { is_node max_nodes n ≡ true }
        ensures { links_mean self.new.nodes self.new.links ≡ blank n }
    {
        self.nodes = n;
        self.links.clear();
        self.latest = [None; NODES];
    }

    /// How many entries there are.
    fn len(&self) -> u16
        ensures { result ≡ length self.now.links }
    {
        self.links.len() as u16
    }

    /// The latest entry at node i.
    fn latest_at(&self, i: Option<u16>) -> Option<u16>
        requires { if_given (is_node max_nodes) i ≡ true }
        ensures { result ≡ latest_of self.now.latest i }
    {
        self.latest[i? as usize - 1]
    }

    /// Visits entry x: if it is marked, marks what comes before it, and answers whether it then stands at node i.
    fn visit(&self, marks: &mut [bool; ENTRIES], x: usize, i: u16) -> bool
        requires { (x < length self.now.links) × (earlier max_entries (slice_index_or self.now.links x no_link) ≡ true) }
        ensures after { marks.new ≡ visited self.now.links marks.old x }
        ensures value { result ≡ met self.now.links marks.old x i }
    {
        if !marks[x] {
            return false;
        }
        let link = self.links[x];
        mark_before(marks, link);
        link.entry.stands(i)
    }

    /// How many entries at node i lie in the past of e: one pass from e down to the oldest.
    fn walk(&self, e: u16, i: u16) -> u16
        requires { e < length self.now.links }
        ensures { result ≡ stamp (all_takes self.now.links) e i }
    {
        let mut marks = [false; ENTRIES];
        marks[e as usize] = true;
        let mut count = 0;
        for x in (0..=e as usize).rev() {
            count += u16::from(self.visit(&mut marks, x, i));
        }
        count
    }

    /// The k-th entry at node i: one pass from the oldest up.
    fn find(&self, i: u16, k: u16) -> Option<u16>
        requires { 1 ≤ k }
        ensures { result ≡ timeline_at (all_takes self.now.links) i k }
    {
        let mut standing = self
            .links
            .iter()
            .enumerate()
            .filter(|(_, link)| link.entry.stands(i));
        standing.nth(k as usize - 1).map(|(x, _)| x as u16)
    }
}

impl Clock for LinkClock {
    ghost means = { λ s. links_mean s.nodes s.links };

    ghost own = { λ s. (meanings_lawful s.nodes (all_takes s.links)).own };

    ghost through = { λ s. (meanings_lawful s.nodes (all_takes s.links)).through };

    ghost earliest = { λ s. (meanings_lawful s.nodes (all_takes s.links)).earliest };

    ghost no_higher = { λ s. (meanings_lawful s.nodes (all_takes s.links)).no_higher };

    fn new() -> LinkClock {
        LinkClock {
            nodes: 1,
            links: Log::new(Link::default()),
            latest: [None; NODES],
        }
    }

    fn begin(&mut self, n: u16) -> bool {
        if !is_node(MAX_NODES, n) {
            return false;
        }
        self.clear(n);
        true
    }

    fn take(&mut self, entry: NewEntry) -> Option<u16> {
        let e = self.len();
        if !admits(self.nodes, e, entry) {
            return None;
        }
        let before = Predecessors {
            own: self.latest_at(Some(entry.node)),
            other: self.latest_at(entry.partner),
        };
        note(&mut self.latest, entry, e);
        self.links.push(Link { entry, before });
        Some(e)
    }

    fn count(&self, e: u16, i: u16) -> Option<u16> {
        knows(self.nodes, self.len(), e, i).then(|| self.walk(e, i))
    }

    fn at(&self, i: u16, k: u16) -> Option<u16> {
        if !is_node(self.nodes, i) || k < 1 {
            return None;
        }
        self.find(i, k)
    }
}
