//! The forms of a line, and the reader of one line.

ghost use Rattle.line_forms.specs.Forms.{Sound, Unique, written};
ghost use Rattle.std.specs.Prelude.{◌≡◌, MatchOption, ◌≢◌};

use causality::Place;
use line_fields::{one_number, two_numbers, two_places};
use line_heads::{Key, head_of};

/// One line of the job text.
#[derive(Clone, Copy, PartialEq, Eq, Debug)]
pub enum Line {
    /// `nodes=N`
    Nodes(u16),
    /// `local=N`
    Local(u16),
    /// `send=N msg=M`
    Send(u16, u16),
    /// `recv=N msg=M`
    Receive(u16, u16),
    /// `meet=N with=M`
    Meet(u16, u16),
    /// `order=P to=Q`
    Order(Place, Place),
}

/// The line that the bytes spell, without the 0A that ends it.
pub fn read_line(line: &[u8]) -> Option<Line>
    ensures { MatchOption result ((l : Line) → Sound l → line.now ≢ written l) (λ l. Sound l × (line.now ≡ written l)) }
{
    let (key, rest) = head_of(line)?;
    Some(match key {
        Key::Nodes => Line::Nodes(one_number(rest)?),
        Key::Local => Line::Local(one_number(rest)?),
        Key::Send => {
            let (node, message) = two_numbers(rest, b" msg=")?;
            Line::Send(node, message)
        }
        Key::Receive => {
            let (node, message) = two_numbers(rest, b" msg=")?;
            Line::Receive(node, message)
        }
        Key::Meet => {
            let (node, other) = two_numbers(rest, b" with=")?;
            Line::Meet(node, other)
        }
        Key::Order => {
            let (from, to) = two_places(rest)?;
            Line::Order(from, to)
        }
        Key::Close | Key::Op | Key::Ask => return None,
    })
}

/// States that no two lines are spelt alike.
pub fn one_reading()
    ensures { Unique }
{}
