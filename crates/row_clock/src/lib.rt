//! A clock that keeps the row of counts of each entry and the column of each node, so that a question is one look-up.
#![tactic(auto)]

ghost use Rattle.std.specs.Prelude.{◌≡◌, ℕ, ◌+◌, ◌<◌, ◌≤◌, true, false, length, slice_index, slice_index_or};
ghost use Rattle.causality.specs.Entries.{is};
ghost use Rattle.causality.specs.Limits.{max_nodes, is_node};
ghost use Rattle.clock.specs.Meaning.{max_entries, blank, if_given};
ghost use Rattle.row_clock.specs.Rows.{no_column, rows_mean, Kept, latest_of, cell_of, next_count, Filed};
ghost use Rattle.row_clock.specs.Laws.{rows_lawful};

mod parts;

use clock::{Clock, ENTRIES, MAX_NODES, NODES, NewEntry, Predecessors, admits, is_node, knows};
use logs::Log;
use parts::{Column, Row};
use std::array;

/// A clock that keeps the row of each entry and the column of each node.
#[derive(Drop)]
pub struct RowClock {
    nodes: u16,
    rows: Log<Row, ENTRIES>,
    columns: [Column; NODES],
    ghost long: { length columns ≡ max_nodes },
    ghost within: { (length rows ≤ max_entries) × (nodes ≤ max_nodes) },
    ghost kept: { Kept rows columns },
}

/// Appends entry e to the columns of its nodes.
fn file(columns: &mut [Column; NODES], entry: NewEntry, e: u16)
    requires node { is_node max_nodes entry.node ≡ true }
    requires partner { if_given (is_node max_nodes) entry.partner ≡ true }
    requires apart { is entry.partner entry.node ≡ false }
    requires room { (i : ℕ) → i < max_nodes → length (slice_index_or columns.old i no_column) < max_entries }
    ensures filed { Filed columns.old entry.node entry.partner e columns.new }
    ensures long { length columns.new ≡ length columns.old }
{
    columns[entry.node as usize - 1].push(e);
    if let Some(partner) = entry.partner {
        columns[partner as usize - 1].push(e);
    }
}

impl RowClock {
    /// Sets n nodes and no entries.
    fn clear(&mut self, n: u16)
        requires { is_node max_nodes n ≡ true }
        ensures { rows_mean self.new.nodes self.new.rows ≡ blank n }
    {
        self.nodes = n;
        self.rows.clear();
        self.columns = array::from_fn(|_| Column::new(0));
    }

    /// How many entries there are.
    fn len(&self) -> u16
        ensures { result ≡ length self.now.rows }
    {
        self.rows.len() as u16
    }

    /// The latest entry at node i.
    fn latest(&self, i: Option<u16>) -> Option<u16>
        requires { if_given (is_node max_nodes) i ≡ true }
        ensures { result ≡ latest_of self.now.columns i }
    {
        self.columns[i? as usize - 1].last().copied()
    }

    /// The count of entry e at node i, 0 if there is none.
    fn cell(&self, e: Option<u16>, i: u16) -> u16
        requires { is_node max_nodes i ≡ true }
        ensures { result ≡ cell_of self.now.rows e i }
    {
        e.and_then(|e| self.rows.get(e as usize))
            .map_or(0, |row| row.counts[i as usize - 1])
    }

    /// The count at node i of a new entry after its immediate predecessors.
    fn next_count(&self, entry: NewEntry, before: Predecessors, i: u16) -> u16
        requires { is_node max_nodes i ≡ true }
        ensures { result ≡ next_count self.now.rows self.now.columns entry.node entry.partner before.own before.other entry.prior i }
    {
        if entry.stands(i) {
            self.columns[i as usize - 1].len() as u16 + 1
        } else {
            self.cell(before.own, i)
                .max(self.cell(before.other, i))
                .max(self.cell(entry.prior, i))
        }
    }

    /// Its counts at all nodes.
    fn next_counts(&self, entry: NewEntry, before: Predecessors) -> [u16; NODES]
        ensures { (i : ℕ) → i < max_nodes → slice_index result i ≡ next_count self.now.rows self.now.columns entry.node entry.partner before.own before.other entry.prior (i + 1) }
    {
        array::from_fn(|i| self.next_count(entry, before, i as u16 + 1))
    }
}

impl Clock for RowClock {
    ghost means = { λ s. rows_mean s.nodes s.rows };

    ghost own = { λ s. (rows_lawful s.nodes s.rows s.columns s.kept).own };

    ghost through = { λ s. (rows_lawful s.nodes s.rows s.columns s.kept).through };

    ghost earliest = { λ s. (rows_lawful s.nodes s.rows s.columns s.kept).earliest };

    ghost no_higher = { λ s. (rows_lawful s.nodes s.rows s.columns s.kept).no_higher };

    fn new() -> RowClock {
        RowClock {
            nodes: 1,
            rows: Log::new(Row::default()),
            columns: array::from_fn(|_| Column::new(0)),
        }
    }

    fn begin(&mut self, n: u16) -> bool {
        if !is_node(MAX_NODES, n) {
            return false;
        }
        self.clear(n);
        true
    }

    fn take(&mut self, entry: NewEntry) -> Option<u16> {
        let e = self.len();
        if !admits(self.nodes, e, entry) {
            return None;
        }
        let before = Predecessors {
            own: self.latest(Some(entry.node)),
            other: self.latest(entry.partner),
        };
        let counts = self.next_counts(entry, before);
        file(&mut self.columns, entry, e);
        self.rows.push(Row {
            node: entry.node,
            partner: entry.partner,
            counts,
        });
        Some(e)
    }

    fn count(&self, e: u16, i: u16) -> Option<u16> {
        knows(self.nodes, self.len(), e, i).then(|| self.cell(Some(e), i))
    }

    fn at(&self, i: u16, k: u16) -> Option<u16> {
        if !is_node(self.nodes, i) {
            return None;
        }
        let place = (k as usize).checked_sub(1)?;
        self.columns[i as usize - 1].get(place).copied()
    }
}
