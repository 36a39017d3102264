//! Tables of parts, which grow at their end.

ghost use Rattle.std.specs.Prelude.{◌≡◌, ◌≤◌, ◌<◌, ◌++◌, ◌∷◌, [], length};

use crate::node::Node;
use std::marker::Model;
use wot_types::MOST_SCOPE;

/// Room for what the bytes of an expression and its end add, three parts each at most, and the first branch.
pub const ROOM: usize = 3 * MOST_SCOPE + 4;

/// A table of parts.
#[derive(Drop)]
pub struct Nodes {
    items: [Node; ROOM],
    len: usize,
}

impl Model for Nodes {
    ghost use Rattle.std.specs.Prelude.{List, take, ◌≤◌};
    ghost use Rattle.wot_regex.specs.declared.node.Node.{Node};
    ghost use Rattle.wot_regex.specs.declared.nodes.TheConstants.{ROOM};

    ghost Value = { List Node };

    ghost view = { λ n. take n.len n.items };

    ghost invariant = { λ n. n.len ≤ ROOM };
}

impl Nodes {
    pub fn new() -> Nodes
        ensures { result ≡ [] }
    {
        Nodes {
            items: [Node::Nothing; ROOM],
            len: 0,
        }
    }

    pub fn push(&mut self, node: Node)
        requires { length self.old < ROOM }
        ensures { self.new ≡ self.old ++ node ∷ [] }
    {
        self.items[self.len] = node;
        self.len += 1;
    }

    pub fn as_slice(&self) -> &[Node]
        ensures value { result.now ≡ self.now }
        ensures bound { length self.now ≤ ROOM }
    {
        &self.items[..self.len]
    }
}
