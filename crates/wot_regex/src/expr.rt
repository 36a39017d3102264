//! Expressions.

ghost use Rattle.std.specs.Prelude.{◌≡◌, ◌≤◌, length, IfSome, Some, option_and_then, option_map};
ghost use Rattle.wot_types.specs.Expression.{Tree};
ghost use Rattle.wot_types.specs.ExpressionGrammar.{IsExpression};
ghost use Rattle.wot_types.specs.ExpressionReading.{after, finished, opening_state, tree_of};
ghost use Rattle.wot_regex.specs.Table.{nodes_of};

use crate::node::Node;
use crate::nodes::{Nodes, ROOM};
use crate::reader::Reader;
use std::marker::Model;
use wot_types::MOST_SCOPE;

/// A regular expression.
#[derive(Drop)]
pub struct Expr {
    nodes: Nodes,
}

impl Model for Expr {
    ghost use Rattle.std.specs.Prelude.{◌≡◌};
    ghost use Rattle.wot_types.specs.Expression.{Tree};

    ghost Value = { Tree };

    ghost use Rattle.wot_regex.specs.Table.{nodes_of, tree_in};
    ghost use Rattle.wot_regex.specs.TreeCode.{tree_code};

    ghost coded = { tree_code };

    ghost view = { λ e. tree_in e.nodes };

    ghost invariant = { λ e. nodes_of (tree_in e.nodes) ≡ e.nodes };
}

impl Expr {
    pub fn nodes(&self) -> &[Node]
        ensures value { result.now ≡ nodes_of self.now }
        ensures room { length result.now ≤ ROOM }
    {
        self.nodes.as_slice()
    }
}

/// The expression that a scope is, if it is one and has at most 255 bytes.
pub fn read(scope: &[u8]) -> Option<Expr>
    ensures value { result ≡ tree_of scope.now }
    ensures found { IfSome result (λ tree. IsExpression tree scope.now) }
    ensures only { (tree : Tree) → IsExpression tree scope.now → result ≡ Some tree }
{
    if scope.len() > MOST_SCOPE {
        return None;
    }
    let nodes = read_nodes(scope)?;
    Some(Expr { nodes })
}

/// The table of the expression that a scope is, if it is one.
fn read_nodes(scope: &[u8]) -> Option<Nodes>
    requires { length scope.now ≤ MOST_SCOPE }
    ensures { result ≡ option_map nodes_of (option_and_then finished (after opening_state scope.now)) }
{
    let mut reader = Reader::new();
    for b in scope {
        let goes_on = reader.take(*b);
        if !goes_on {
            return None;
        }
    }
    reader.finish()
}
