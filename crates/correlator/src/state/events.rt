//! Starting a trace, and its events.

ghost use Rattle.std.specs.Prelude.{◌≡◌};
ghost use Rattle.causality.specs.Traces.{node_of};
ghost use Rattle.correlator.specs.Sound.{Next};
ghost use Rattle.correlator.specs.Told.{history};
ghost use Rattle.history.specs.Answers.{Obeys, next_place};
ghost use Rattle.history.specs.Calls.{Call, with_event};
ghost use Rattle.history.specs.History.{idle};

use super::Correlator;
use crate::trace::Trace;
use causality::{Event, Place};
use clock::{Clock, NewEntry};
use history::Refusal;

impl<F: Clock, R: Clock> Correlator<F, R> {
    /// A correlator that has no trace yet.
    pub fn new() -> Self
        ensures { history result ≡ idle }
    {
        Correlator {
            trace: Trace::new(),
            forward: F::new(),
            reverse: R::new(),
        }
    }

    /// Drops everything and opens an empty trace of n nodes.
    pub fn start(&mut self, n: u16) -> Result<(), Refusal>
        ensures { Obeys (history self.old) (Call.start n) result (λ _. Unit {0}) (history self.new) }
    {
        if !self.forward.begin(n) {
            return Err(Refusal::NodeCount);
        }
        let _ = self.reverse.begin(n);
        self.trace.start(n);
        Ok(())
    }

    /// An event of node a alone. Answers its place.
    pub fn local(&mut self, a: u16) -> Result<Place, Refusal>
        ensures { Obeys (history self.old) (Call.local a) result (λ p. p ≡ next_place (history self.old) a) (history self.new) }
    {
        self.trace.check_local(a)?;
        Ok(self.append(Event::Local(a), None))
    }

    /// Node a sends message m. Answers the event's place.
    pub fn send(&mut self, a: u16, m: u16) -> Result<Place, Refusal>
        ensures { Obeys (history self.old) (Call.send a m) result (λ p. p ≡ next_place (history self.old) a) (history self.new) }
    {
        self.trace.check_send(a, m)?;
        Ok(self.append(Event::Send(a, m), None))
    }

    /// Node a receives message m. Answers the event's place.
    pub fn receive(&mut self, a: u16, m: u16) -> Result<Place, Refusal>
        ensures { Obeys (history self.old) (Call.receive a m) result (λ p. p ≡ next_place (history self.old) a) (history self.new) }
    {
        let sender = self.trace.check_receive(a, m)?;
        Ok(self.append(Event::Receive(a, m), Some(sender)))
    }

    /// Nodes a and b meet in one event. Answers its place at a.
    pub fn meet(&mut self, a: u16, b: u16) -> Result<Place, Refusal>
        ensures { Obeys (history self.old) (Call.meet a b) result (λ p. p ≡ next_place (history self.old) a) (history self.new) }
    {
        self.trace.check_meet(a, b)?;
        Ok(self.append(Event::Meet(a, b), None))
    }

    // Takes an event that the trace accepts, with the event that it follows by a message.
    fn append(&mut self, event: Event, follows: Option<u16>) -> Place
        requires { Next (history self.old) event follows }
        ensures grown { history self.new ≡ with_event (history self.old) event }
        ensures place { result ≡ next_place (history self.old) (node_of event) }
    {
        let entry = NewEntry::of(event, follows);
        let number = self.trace.count();
        let _ = self.forward.take(entry);
        let index = self.forward.count(number, entry.node).unwrap_or(0);
        self.trace.push(event);
        Place {
            node: entry.node,
            index,
        }
    }
}
