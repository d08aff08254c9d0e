//! Calls on a correlator, and their answers, as values.

ghost use Rattle.std.specs.Prelude.{◌≡◌};
ghost use Rattle.promise.specs.Requests.{without_row};

use causality::{CausalOrder, Place};
use gathering::Row;
use history::Refusal;

/// A row that is lent to a call: its first `len` numbers, at most 16.
#[derive(Clone, Copy, PartialEq, Eq, Debug)]
pub struct Lent {
    pub row: Row,
    pub len: u16,
}

/// A call on a correlator.
#[derive(Clone, Copy, PartialEq, Eq, Debug)]
pub enum Request {
    /// A number of nodes.
    Start(u16),
    /// A node.
    Local(u16),
    /// A node and a message number.
    Send(u16, u16),
    /// A node and a message number.
    Receive(u16, u16),
    /// Two nodes.
    Meet(u16, u16),
    Close,
    /// Two places.
    Order(Place, Place),
    /// A place, a direction (1 or 2), and a row.
    Stamp(Place, u16, Lent),
}

/// What an accepted call answers.
#[derive(Clone, Copy, PartialEq, Eq, Debug)]
pub enum Value {
    /// A start, close or stamp was done.
    Done,
    /// The place of an event.
    Placed(Place),
    /// How two events stand to each other.
    Ordered(CausalOrder),
}

/// What a call answered, and what it left in the row that it was lent, if it was lent one.
#[derive(Clone, Copy, PartialEq, Eq, Debug)]
pub struct Answer {
    pub result: Result<Value, Refusal>,
    pub row: Option<Row>,
}

/// An answer of a call that is lent no row.
impl From<Result<Value, Refusal>> for Answer {
    ghost from_gives = { λ r a. a ≡ without_row r };

    fn from(res: Result<Value, Refusal>) -> Answer {
        Answer {
            result: res,
            row: None,
        }
    }
}
