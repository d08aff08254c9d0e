//! A trace that both clocks took.

ghost use Rattle.std.specs.Prelude.{◌≡◌, length, min};
ghost use Rattle.summaries.specs.Rows.{column_length, length-row};

use causality::{Event, from_last};
use clock::Clock;
use gathering::Row;

/// A trace that two clocks took, one of them from its last event to its first.
#[derive_where(Clone, Copy)]
pub struct Trace<'a, F, R> {
    pub forward: &'a F,
    pub reverse: &'a R,
    /// Its events, oldest first.
    pub events: &'a [Event],
}

impl<F: Clock, R: Clock> Trace<'_, F, R> {
    // How many events there are, or 65,535 where there are more.
    pub(crate) fn len(&self) -> u16
        ensures { result ≡ min (length self.now.events.now) 65535 }
    {
        u16::try_from(self.events.len()).unwrap_or(u16::MAX)
    }

    // How many events each node has.
    pub(crate) fn lengths(&self) -> Row
        ensures { result ≡ length-row (F.Clock.means self.now.forward.now) (R.Clock.means self.now.reverse.now) (min (length self.now.events.now) 65535) }
    {
        Row::at_nodes(|i| self.column_length(i))
    }

    // How many events node i has: the index of its last event, which the reverse clock has as its first.
    fn column_length(&self, i: u16) -> u16
        ensures { result ≡ column_length (F.Clock.means self.now.forward.now) (R.Clock.means self.now.reverse.now) (min (length self.now.events.now) 65535) i }
    {
        let events = self.len();
        let last = self.reverse.at(i, 1).map(|e| from_last(events, e));
        last.and_then(|e| self.forward.count(e, i)).unwrap_or(0)
    }
}
