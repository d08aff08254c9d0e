//! The rows of members, and rows joined.

ghost use Rattle.std.specs.List.{AllZip};
ghost use Rattle.std.specs.Prelude.{◌≡◌, ℕ, ◌<◌, ◌≤◌, List, length, slice_index};
ghost use Rattle.gathering.specs.Gathering.{joined_all};
ghost use Rattle.counting.specs.Counting.{or_zeros};
ghost use Rattle.gathering.specs.declared.Row.{Row};
ghost use Rattle.history.specs.Answers.{with_row};
ghost use Rattle.records.specs.Summaries.{at_node};
ghost use Rattle.summaries.specs.Rows.{from_column_end, own_count, own_row, own_row_of};

use causality::Event;
use clock::Clock;
use counting::NO_ROW;
use gathering::{Joining, Row, gather_by};
use std::array;

// The rows that are made of members, joined in two ways; zeros of no members.
pub(crate) fn bounds<J: Joining<Row>, K: Joining<Row>, F: Fn(u16) -> Row>(
    members: &[u16],
    make: F,
) -> (Row, Row)
    requires { F.IsAlwaysCallable make }
    ensures { (rows : List Row) × AllZip (F.post make) members.now rows × (result.0 ≡ or_zeros (joined_all J.Joining.op rows)) × (result.1 ≡ or_zeros (joined_all K.Joining.op rows)) }
{
    gather_by::<u16, (Row, Row), (J, K), _>(members, |e| twice(make(e))).unwrap_or((NO_ROW, NO_ROW))
}

fn twice(row: Row) -> (Row, Row)
    ensures { result ≡ (row, row) }
{
    (row, row)
}

pub(crate) fn own_row_of<C: Clock>(clock: &C, events: &[Event], e: u16) -> Row
    ensures { result ≡ own_row_of (C.Clock.means clock.now) events.now e }
{
    events
        .get(e as usize)
        .map_or(NO_ROW, |event| own_row(clock, *event, e))
}

// The counts of an event at its own nodes; 0 at the others.
fn own_row<C: Clock>(clock: &C, event: Event, e: u16) -> Row
    ensures { result ≡ own_row (C.Clock.means clock.now) event e }
{
    Row::at_nodes(|i| own_count(clock, event, e, i))
}

fn own_count<C: Clock>(clock: &C, event: Event, e: u16, i: u16) -> u16
    ensures { result ≡ own_count (C.Clock.means clock.now) event e i }
{
    if event.stands(i) {
        clock.count(e, i).unwrap_or(0)
    } else {
        0
    }
}

// Counts from the end of each column as indexes from its front: one more than the column's length, less the count.
pub(crate) fn from_end(lengths: &Row, counts: &Row) -> Row
    ensures { (i : ℕ) → i < 16 → slice_index result.counts i ≡ from_column_end (slice_index lengths.now.counts i) (slice_index counts.now.counts i) }
{
    Row {
        counts: array::from_fn(|i| {
            lengths.counts[i]
                .saturating_add(1)
                .saturating_sub(counts.counts[i])
        }),
    }
}

/// Writes the numbers of a row at the nodes 1 to n.
pub fn write_row(from: &Row, n: u16, row: &mut [u16])
    requires few { n ≤ 16 }
    requires room { n ≤ length row.old }
    ensures { row.new ≡ with_row n (at_node from.now) row.old }
{
    row[..n as usize].copy_from_slice(&from.counts[..n as usize]);
}
