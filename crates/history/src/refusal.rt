//! Why a call is refused.

ghost use Rattle.history.specs.Refusals.{number};
ghost use Rattle.std.specs.Prelude.{◌≡◌};

/// Why a call is refused; each case has a number.
#[derive(Clone, Copy, PartialEq, Eq, Debug)]
pub enum Refusal {
    /// No trace was started.
    Idle = 1,
    /// The number of nodes is not 1 to 16.
    NodeCount = 2,
    /// The trace is closed.
    Closed = 3,
    /// The trace is still open.
    Open = 4,
    /// No such node.
    NoNode = 5,
    /// 512 events are held.
    Full = 6,
    /// The message was sent before.
    SentBefore = 7,
    /// The message was not sent.
    NotSent = 8,
    /// The message was received before.
    ReceivedBefore = 9,
    /// The node is the sender, or meets itself.
    SameNode = 10,
    /// 0 is no message number.
    NoMessage = 11,
    /// The name is not 1 to 8 bytes of A to Z or 0 to 9.
    BadName = 12,
    /// An operation has the name.
    NameTaken = 13,
    /// 32 operations are held.
    OperationsFull = 14,
    /// The list has not 1 to 512 places.
    PlaceCount = 15,
    /// A place names no event.
    NoEvent = 16,
    /// No operation has the name.
    NoOperation = 17,
    /// The row is shorter than the number of nodes.
    ShortRow = 18,
    /// No such direction, cut or relation.
    BadSelector = 19,
}

impl From<Refusal> for u8 {
    ghost from_gives = { λ r n. n ≡ number r };

    fn from(refusal: Refusal) -> u8 {
        refusal as u8
    }
}
