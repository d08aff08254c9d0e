//! The key that a line of the job text begins with.
#![tactic(auto)]

ghost use Rattle.line_heads.specs.Heads.{NoKey, Splits};
ghost use Rattle.std.specs.Prelude.{MatchOption};

/// The keys of the lines.
#[derive(Clone, Copy, PartialEq, Eq, Debug)]
pub enum Key {
    /// `nodes=`
    Nodes,
    /// `local=`
    Local,
    /// `send=`
    Send,
    /// `recv=`
    Receive,
    /// `meet=`
    Meet,
    /// `close=`
    Close,
    /// `op=`
    Op,
    /// `order=`
    Order,
    /// `ask=`
    Ask,
}

/// The key that a line begins with, and what follows it; none if it begins with no key.
pub fn head_of(line: &[u8]) -> Option<(Key, &[u8])>
    ensures { MatchOption result (NoKey line.now) (λ h. Splits line.now h.0 h.1.now) }
{
    match line {
        [b'n', b'o', b'd', b'e', b's', b'=', rest @ ..] => Some((Key::Nodes, rest)),
        [b'l', b'o', b'c', b'a', b'l', b'=', rest @ ..] => Some((Key::Local, rest)),
        [b's', b'e', b'n', b'd', b'=', rest @ ..] => Some((Key::Send, rest)),
        [b'r', b'e', b'c', b'v', b'=', rest @ ..] => Some((Key::Receive, rest)),
        [b'm', b'e', b'e', b't', b'=', rest @ ..] => Some((Key::Meet, rest)),
        [b'c', b'l', b'o', b's', b'e', b'=', rest @ ..] => Some((Key::Close, rest)),
        [b'o', b'p', b'=', rest @ ..] => Some((Key::Op, rest)),
        [b'o', b'r', b'd', b'e', b'r', b'=', rest @ ..] => Some((Key::Order, rest)),
        [b'a', b's', b'k', b'=', rest @ ..] => Some((Key::Ask, rest)),
        _ => None,
    }
}
