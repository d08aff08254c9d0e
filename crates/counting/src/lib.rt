//! Rows of counts, got from a clock.
#![tactic(auto)]

ghost use Rattle.std.specs.Prelude.{◌≡◌, ◌≤◌, map, length};
ghost use Rattle.clock.specs.Meaning.{counted};
ghost use Rattle.counting.specs.Counting.{Joint, count_row, or_zero, or_zeros, zipped_rows};
ghost use Rattle.gathering.specs.Gathering.{joined_all};
ghost use Rattle.history.specs.Answers.{with_row};

use clock::Clock;
use gathering::{Joining, ROW, Row, gather, gather_by};

/// A row of zeros.
pub const NO_ROW: Row = Row { counts: [0; ROW] };

/// Writes the counts of an entry at the nodes 1 to n; 0 where a count is absent.
pub fn write_counts<C: Clock>(clock: &C, e: u16, n: u16, row: &mut [u16])
    requires { n ≤ length row.old }
    ensures { row.new ≡ with_row n (λ i. or_zero (counted (C.Clock.means clock.now) e i)) row.old }
{
    for (i, count) in row[..n as usize].iter_mut().enumerate() {
        *count = clock.count(e, i as u16 + 1).unwrap_or(0);
    }
}

/// The counts of an entry at every node that a trace may have; 0 at those that this one has not.
pub fn row_of<C: Clock>(clock: &C, e: u16) -> Row
    ensures { result ≡ count_row (C.Clock.means clock.now) e }
{
    Row::at_nodes(|i| clock.count(e, i).unwrap_or(0))
}

/// The counts of some entries, joined node by node; none of no entries.
pub fn joint_counts<C: Clock, J: Joining<u16>>(clock: &C, entries: &[u16]) -> Option<Row>
    ensures rows { result ≡ joined_all (zipped_rows J.Joining.op) (map (count_row (C.Clock.means clock.now)) entries.now) }
    ensures counts { Joint J.Joining.op (C.Clock.means clock.now) entries.now result }
{
    gather_by::<u16, Row, J, _>(entries, |e| row_of(clock, e))
}

/// Some rows joined; zeros if there are none.
pub fn joined_row<J: Joining<Row>>(rows: &[Row]) -> Row
    ensures { result ≡ or_zeros (joined_all J.Joining.op rows.now) }
{
    gather::<Row, J>(rows).unwrap_or_default()
}
