//! Starting a trace, and adding events to it.

ghost use Rattle.std.specs.Prelude.{◌≡◌, ℕ, ◌+◌, ◌<◌, ◌≤◌, [], length, Some, None};
ghost use Rattle.causality.specs.Traces.{sends};
ghost use Rattle.correlator.specs.Trace.{told, traced};
ghost use Rattle.feeding.specs.Posted.{noted};
ghost use Rattle.history.specs.Calls.{Call, after, with_event};
ghost use Rattle.history.specs.History.{idle};
ghost use Rattle.records.specs.Messages.{sent_of};

use super::Trace;
use causality::Event;
use history::Stage;
use logs::Log;
use records::{Messages, Sent};

impl Trace {
    /// No trace yet.
    pub fn new() -> Trace
        ensures idle { traced result ≡ idle }
        ensures none { length result.sent ≡ 0 }
    {
        Trace {
            stage: Stage::Idle,
            nodes: 1,
            events: Log::new(Event::default()),
            sent: Messages::new(),
        }
    }

    /// Drops everything and opens an empty trace of n nodes.
    pub fn start(&mut self, n: u16)
        ensures empty { told self.new ≡ record { stage = Stage.Open; nodes = n; events = [] } }
        ensures none { length self.new.sent ≡ 0 }
    {
        self.stage = Stage::Open;
        self.nodes = n;
        self.events.clear();
        self.sent.clear();
    }

    /// How many events there are.
    pub fn count(&self) -> u16
        ensures { result ≡ length self.now.events }
    {
        self.events.len() as u16
    }

    /// Takes no more events.
    pub fn close(&mut self)
        ensures closed { traced self.new ≡ after (traced self.old) Call.close }
        ensures same { self.new.sent ≡ self.old.sent }
    {
        self.stage = Stage::Closed;
    }

    /// Puts an event behind the others, and notes what it sends or receives.
    pub fn push(&mut self, event: Event)
        requires room { length self.old.events < 512 }
        requires fresh { (m : ℕ) → sends event ≡ Some m → sent_of self.old.sent m ≡ None }
        ensures grown { traced self.new ≡ with_event (traced self.old) event }
        ensures sets { (m : ℕ) → sent_of self.new.sent m ≡ noted event (length self.old.events) (sent_of self.old.sent) m }
    {
        let number = self.count();
        note(&mut self.sent, event, number);
        self.events.push(event);
    }
}

// Notes what an event of this number sends or receives.
fn note(sent: &mut Messages, event: Event, number: u16)
    requires room { length sent.old < 512 }
    requires fresh { (m : ℕ) → sends event ≡ Some m → sent_of sent.old m ≡ None }
    ensures sets { (m : ℕ) → sent_of sent.new m ≡ noted event number (sent_of sent.old) m }
    ensures few { length sent.new ≤ length sent.old + 1 }
{
    match event {
        Event::Send(node, message) => sent.insert(Sent {
            message,
            node,
            event: number,
            receipt: None,
        }),
        Event::Receive(_, message) => sent.receive(message, number),
        Event::Local(_) | Event::Meet(_, _) => {}
    }
}
