//! What a row clock keeps of each entry, and of each node.

ghost use Rattle.std.specs.Prelude.{◌≡◌, true, length};
ghost use Rattle.causality.specs.Limits.{max_nodes, is_node};

use clock::{ENTRIES, NODES};
use logs::Log;

/// An entry: its node, the second node of a meet, and how many entries of each node lie in its past.
#[derive(Clone, Copy)]
pub struct Row {
    pub node: u16,
    pub partner: Option<u16>,
    pub counts: [u16; NODES],
    ghost wide: { length counts ≡ max_nodes },
    ghost placed: { is_node max_nodes node ≡ true },
}

impl Default for Row {
    fn default() -> Row {
        Row {
            node: 1,
            partner: None,
            counts: [0; NODES],
        }
    }
}

/// A node: the numbers of its entries, from the oldest.
pub type Column = Log<u16, ENTRIES>;
