//! The refusals of each event call, tried in order.

ghost use Rattle.correlator.specs.Trace.{local_tests, meet_tests, open_tests, receive_tests, send_tests, traced};
ghost use Rattle.causality.specs.Limits.{max_events};
ghost use Rattle.feeding.specs.Posted.{event_of};
ghost use Rattle.history.specs.Answers.{reason};
ghost use Rattle.history.specs.Calls.{first_that, in_trace};
ghost use Rattle.history.specs.declared.refusal.Refusal.TheVariants.{Full};
ghost use Rattle.records.specs.Messages.{sent_of};
ghost use Rattle.std.specs.Prelude.{◌≡◌, [], ◌∷◌, IfOk, Some, length, nat_le};

use super::Trace;
use clock::is_node;
use history::{Refusal, Stage};

impl Trace {
    /// There is a trace, and events may still come.
    pub fn check_open(&self) -> Result<(), Refusal>
        ensures { reason result ≡ first_that (open_tests (traced self.now)) }
    {
        match self.stage {
            Stage::Idle => Err(Refusal::Idle),
            Stage::Closed => Err(Refusal::Closed),
            Stage::Open => Ok(()),
        }
    }

    // An event may come, at nodes that fit.
    fn check_nodes(&self, nodes_fit: bool) -> Result<(), Refusal>
        ensures { reason result ≡ first_that (in_trace (traced self.now) nodes_fit []) }
    {
        self.check_open()?;
        if nodes_fit {
            Ok(())
        } else {
            Err(Refusal::NoNode)
        }
    }

    // One more event may be held.
    fn check_room(&self) -> Result<(), Refusal>
        ensures { reason result ≡ first_that ((nat_le max_events (length self.now.events), Full) ∷ []) }
    {
        if self.events.is_full() {
            Err(Refusal::Full)
        } else {
            Ok(())
        }
    }

    /// The refusals of a local event.
    pub fn check_local(&self, a: u16) -> Result<(), Refusal>
        ensures { reason result ≡ first_that (local_tests self.now a) }
    {
        self.check_nodes(is_node(self.nodes, a))?;
        self.check_room()
    }

    /// The refusals of a send.
    pub fn check_send(&self, a: u16, m: u16) -> Result<(), Refusal>
        ensures { reason result ≡ first_that (send_tests self.now a m) }
    {
        self.check_nodes(is_node(self.nodes, a))?;
        if m == 0 {
            return Err(Refusal::NoMessage);
        }
        if self.sent.find(m).is_some() {
            return Err(Refusal::SentBefore);
        }
        self.check_room()
    }

    /// The refusals of a receive, or the event that sent the message.
    pub fn check_receive(&self, a: u16, m: u16) -> Result<u16, Refusal>
        ensures first { reason result ≡ first_that (receive_tests self.now a m) }
        ensures sender { IfOk result (λ e. event_of (sent_of self.now.sent m) ≡ Some e) }
    {
        self.check_nodes(is_node(self.nodes, a))?;
        if m == 0 {
            return Err(Refusal::NoMessage);
        }
        let sent = self.sent.find(m).ok_or(Refusal::NotSent)?;
        if sent.receipt.is_some() {
            return Err(Refusal::ReceivedBefore);
        }
        if sent.node == a {
            return Err(Refusal::SameNode);
        }
        self.check_room()?;
        Ok(sent.event)
    }

    /// The refusals of a meet.
    pub fn check_meet(&self, a: u16, b: u16) -> Result<(), Refusal>
        ensures { reason result ≡ first_that (meet_tests self.now a b) }
    {
        self.check_nodes(is_node(self.nodes, a) && is_node(self.nodes, b))?;
        if a == b {
            return Err(Refusal::SameNode);
        }
        self.check_room()
    }
}
