//! An expression for many texts.

ghost use Rattle.std.specs.Prelude.{◌≡◌, ◌↔◌, IsTrue, IfOk, IfSome};
ghost use Rattle.wot_regex.specs.States.{IsKnown};
ghost use Rattle.wot_types.specs.Scope.{matches_in};
ghost use Rattle.wot_types.specs.ExpressionMatch.{MatchesIn};

use crate::expr::Expr;
use crate::known::Known;
use crate::matching::matches;
use crate::node::Node;
use crate::set::PLACES;
use std::alloc::Global;
use std::marker::Model;
use wot_types::Mem;

/// An expression that keeps what earlier texts came to. Callers see the expression alone.
#[derive(Drop)]
pub struct Matcher {
    expr: Expr,
    /// None where the table has more parts than a set has places.
    known: Option<Known>,
}

impl Model for Matcher {
    ghost use Rattle.wot_types.specs.Expression.{Tree};

    ghost Value = { Tree };

    ghost use Rattle.std.specs.Prelude.{IfSome};
    ghost use Rattle.wot_regex.specs.States.{IsKnown};
    ghost use Rattle.wot_regex.specs.Table.{nodes_of};
    ghost use Rattle.wot_regex.specs.TreeCode.{tree_code};

    ghost coded = { tree_code };

    ghost view = { λ m. m.expr };

    ghost invariant = { λ m. IfSome m.known (IsKnown (nodes_of m.expr)) };
}

impl Matcher {
    pub fn new(alloc: Global, expr: Expr) -> Result<Matcher, Mem>
        ensures { IfOk result (λ matcher. matcher ≡ expr) }
    {
        let known = known_of(alloc, expr.nodes())?;
        Ok(Matcher { expr, known })
    }

    /// Whether the expression matches somewhere in the text, by bytes and without regard to ASCII case.
    pub fn matches(&mut self, text: &[u8]) -> bool
        ensures same { self.new ≡ self.old }
        ensures value { result ≡ matches_in self.old text.now }
        ensures means { IsTrue result ↔ MatchesIn self.old text.now }
    {
        self.test(text, true)
    }

    /// The same. Where it may grow, what takes much memory may be made for further texts.
    pub(crate) fn test(&mut self, text: &[u8], may_grow: bool) -> bool
        ensures same { self.new ≡ self.old }
        ensures value { result ≡ matches_in self.old text.now }
    {
        match &mut self.known {
            Some(known) => known.matches(self.expr.nodes(), text, may_grow),
            None => matches(&self.expr, text),
        }
    }

    /// Whether a text may be slow to search.
    pub(crate) fn is_slow(&self) -> bool {
        match &self.known {
            Some(known) => known.is_full(),
            None => true,
        }
    }

    /// About how many bytes it takes.
    pub fn size(&self) -> usize {
        match &self.known {
            Some(known) => size_of::<Expr>().saturating_add(known.size()),
            None => size_of::<Matcher>(),
        }
    }
}

/// What is known at first, of a table that has no more parts than a set has places.
fn known_of(alloc: Global, nodes: &[Node]) -> Result<Option<Known>, Mem>
    ensures { IfOk result (λ known. IfSome known (IsKnown nodes.now)) }
{
    if nodes.len() > PLACES {
        return Ok(None);
    }
    Ok(Some(Known::new(alloc, nodes)?))
}
