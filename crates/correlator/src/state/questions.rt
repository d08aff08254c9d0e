//! Questions about the trace: the order of two events, and an event's vector timestamp.

ghost use Rattle.std.specs.Prelude.{◌≡◌, ◌≤◌, length, Decides, IfOk, MatchResult, OnOk, Some, None};
ghost use Rattle.causality.specs.Relations.{To};
ghost use Rattle.causality.specs.Traces.{Orderly};
ghost use Rattle.correlator.specs.Questions.{IsAt, Selects, direction_number};
ghost use Rattle.correlator.specs.Told.{history};
ghost use Rattle.history.specs.Answers.{Compared, Obeys, OrderOf, reason, stamped};
ghost use Rattle.history.specs.Calls.{Call, refusal};
ghost use Rattle.history.specs.History.{named};
ghost use Rattle.history.specs.Lawful.{Lawful};

use super::Correlator;
use causality::{CausalOrder, Place, from_last};
use clock::Clock;
use counting::write_counts;
use history::{Refusal, Stage};

/// The number of a forward timestamp.
pub const FORWARD: u16 = 1;

/// The number of a reverse timestamp.
pub const REVERSE: u16 = 2;

/// Which of the two timestamps of an event, with its number.
#[derive(Clone, Copy, PartialEq, Eq, Debug)]
pub enum Direction {
    /// It counts the event and those that happened before it.
    Forward = 1,
    /// It counts the event and those that happened after it.
    Reverse = 2,
}

impl From<Direction> for u16 {
    ghost from_gives = { λ d n. n ≡ direction_number d };

    fn from(direction: Direction) -> u16 {
        direction as u16
    }
}

impl TryFrom<u16> for Direction {
    type Error = Refusal;

    ghost try_from_gives = { Selects };

    fn try_from(number: u16) -> Result<Direction, Refusal> {
        match number {
            FORWARD => Ok(Direction::Forward),
            REVERSE => Ok(Direction::Reverse),
            _ => Err(Refusal::BadSelector),
        }
    }
}

// A place, and the number of the event that it names.
#[derive(Clone, Copy)]
struct Found {
    place: Place,
    event: u16,
}

impl<F: Clock, R: Clock> Correlator<F, R> {
    /// How many events there are. Whatever it was told, its history is lawful.
    pub fn count(&self) -> u16
        ensures count { result ≡ length (history self.now).events }
        ensures lawful { Lawful (history self.now) }
    {
        self.trace.count()
    }

    /// How the event at p stands to the event at q.
    pub fn order(&self, p: Place, q: Place) -> Result<CausalOrder, Refusal>
        ensures { Obeys (history self.now) (Call.order p q) result (OrderOf (history self.now) p q) (history self.now) }
    {
        if self.trace.stage == Stage::Idle {
            return Err(Refusal::Idle);
        }
        let x = self.find(p)?;
        let y = self.find(q)?;
        Ok(self.compare(x, y))
    }

    /// Writes the timestamp of the event at p, forward (1) or reverse (2), into the first n numbers of a row.
    pub fn stamp(&self, p: Place, d: u16, row: &mut [u16]) -> Result<(), Refusal>
        ensures obeys { Obeys (history self.now) (Call.stamp p d (length row.old)) result (λ _. Unit {0}) (history self.now) }
        ensures stamped { row.new ≡ stamped (history self.now) p d (length row.old) row.old }
    {
        let (direction, x) = self.check_stamp(p, d, row.len())?;
        match direction {
            Direction::Forward => write_counts(&self.forward, x.event, self.trace.nodes, row),
            Direction::Reverse => write_counts(
                &self.reverse,
                from_last(self.trace.count(), x.event),
                self.trace.nodes,
                row,
            ),
        }
        Ok(())
    }

    // The refusals of a stamp, or the direction and the event that it asks for.
    fn check_stamp(&self, p: Place, d: u16, len: usize) -> Result<(Direction, Found), Refusal>
        ensures first { reason result ≡ refusal (history self.now) (Call.stamp p d len) }
        ensures direction { IfOk result (λ x. direction_number x.0 ≡ d) }
        ensures found { IfOk result (λ x. (x.1.place ≡ p) × IsAt self.now x.1) }
        ensures room { OnOk result (self.now.nodes ≤ len) }
    {
        if self.trace.stage == Stage::Idle {
            return Err(Refusal::Idle);
        }
        let direction = Direction::try_from(d)?;
        if direction == Direction::Reverse && self.trace.stage == Stage::Open {
            return Err(Refusal::Open);
        }
        let x = self.find(p)?;
        if len < self.trace.nodes as usize {
            return Err(Refusal::ShortRow);
        }
        Ok((direction, x))
    }

    // The event that a place names.
    fn find(&self, place: Place) -> Result<Found, Refusal>
        ensures { MatchResult result (λ x. (x.place ≡ place) × IsAt self.now x) (λ e. (e ≡ Refusal.NoEvent) × (named (history self.now) place ≡ None)) }
    {
        let event = self
            .forward
            .at(place.node, place.index)
            .ok_or(Refusal::NoEvent)?;
        Ok(Found { place, event })
    }

    // The order of two events: a place lies in a past exactly if its index is counted there.
    fn compare(&self, x: Found, y: Found) -> CausalOrder
        requires orderly { Orderly self.now.events }
        requires x { IsAt self.now x }
        requires y { IsAt self.now y }
        ensures { Compared self.now.events x.event y.event result }
    {
        if x.event == y.event {
            CausalOrder::Same
        } else if self.reaches(x, y) {
            CausalOrder::Before
        } else if self.reaches(y, x) {
            CausalOrder::After
        } else {
            CausalOrder::Concurrent
        }
    }

    // Whether one event is the other or happened before it.
    fn reaches(&self, x: Found, y: Found) -> bool
        requires x { IsAt self.now x }
        requires y { IsAt self.now y }
        ensures { Decides result (To self.now.events x.event y.event) }
    {
        let Place { node, index } = x.place;
        index <= self.forward.count(y.event, node).unwrap_or(0)
    }
}
