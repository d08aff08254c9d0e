//! Looking up, adding and marking messages.

ghost use Rattle.std.specs.Ordering.{nat_cmp};
ghost use Rattle.std.specs.Prelude.{◌≡◌, ℕ, ◌+◌, ◌<◌, ◌≤◌, if◌then◌else◌, Some, None, nat_eq, length};
ghost use Rattle.table.specs.Tables.{Rising};
ghost use Rattle.records.specs.declared.messages.Sent.{Sent};
ghost use Rattle.records.specs.Messages.{received, sent_of};

use super::{MAX_MESSAGES, Messages, Sent};

impl Messages {
    /// No messages.
    pub fn new() -> Self
        ensures len { length result ≡ 0 }
    {
        Messages {
            records: [Sent {
                message: 0,
                node: 0,
                event: 0,
                receipt: None,
            }; MAX_MESSAGES],
            len: 0,
        }
    }

    /// Forgets all messages.
    pub fn clear(&mut self)
        ensures len { length self.new ≡ 0 }
    {
        self.len = 0;
    }

    /// How many messages there are: 512 at most, of rising numbers.
    pub fn count(&self) -> usize
        ensures len { result ≡ length self.now }
        ensures few { length self.now ≤ 512 }
        ensures rises { Rising nat_cmp (λ (s : Sent). s.message) self.now }
    {
        self.len
    }

    /// The message of this number, if it was sent.
    pub fn find(&self, message: u16) -> Option<Sent>
        ensures { result ≡ sent_of self.now message }
    {
        let held = &self.records[..self.len];
        let at = table::find(held, &message)?;
        Some(held[at])
    }

    /// Adds a message whose number is new.
    pub fn insert(&mut self, item: Sent)
        requires room { length self.old < 512 }
        requires fresh { sent_of self.old item.message ≡ None }
        ensures len { length self.new ≡ length self.old + 1 }
        ensures sets { (m : ℕ) → sent_of self.new m ≡ (if nat_eq item.message m then Some item else sent_of self.old m) }
    {
        table::insert(&mut self.records[..self.len + 1], item);
        self.len += 1;
    }

    /// Notes the event that received a message, if the message was sent.
    pub fn receive(&mut self, message: u16, event: u16)
        ensures len { length self.new ≡ length self.old }
        ensures sets { (m : ℕ) → sent_of self.new m ≡ (if nat_eq message m then received event (sent_of self.old m) else sent_of self.old m) }
    {
        if let Some(at) = table::find(&self.records[..self.len], &message) {
            self.records[at].receipt = Some(event);
        }
    }
}
