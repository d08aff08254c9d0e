//! Feeding a clock the events of a trace from last to first.
#![tactic(auto)]

ghost use Rattle.std.specs.Prelude.{◌≡◌, ◌≤◌, length};
ghost use Rattle.feeding.specs.Posted.{fed_through, follower};
ghost use Rattle.records.specs.Messages.{sent_of};

use causality::{Event, from_last};
use clock::{Clock, NewEntry};
use records::Messages;

/// Gives a clock some events, the last of them first, each send with the entry of its receive.
pub fn feed_back<C: Clock>(clock: &mut C, events: &[Event], sent: &Messages)
    requires { length events.now ≤ 65535 }
    ensures { C.Clock.means clock.new ≡ fed_through (C.Clock.means clock.old) (follower (sent_of sent.now) (length events.now)) events.now }
{
    let len = events.len() as u16;
    for event in events.iter().rev() {
        let _ = clock.take(NewEntry::of(*event, follower_of(*event, sent, len)));
    }
}

// The entry of the event that received what an event sends, if it sends and that was received.
fn follower_of(event: Event, sent: &Messages, len: u16) -> Option<u16>
    ensures { result ≡ follower (sent_of sent.now) len event }
{
    let Event::Send(_, m) = event else {
        return None;
    };
    let receipt = sent.find(m)?.receipt?;
    Some(from_last(len, receipt))
}
