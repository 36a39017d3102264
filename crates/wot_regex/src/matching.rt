//! Whether an expression matches somewhere in a text.
//!
//! Each symbol of the expression is marked where a match that began somewhere before has just ended with it. A byte of the text takes two
//! walks over the table: from the symbols to the whole, which tells what each part reaches, and back, which tells where a match may
//! go on, and moves the marks.

ghost use Rattle.std.specs.Prelude.{◌≡◌, ◌≤◌, ◌<◌, ◌+◌, ◌↔◌, ◌∷◌, [], Bool, IsTrue, List, length};
ghost use Rattle.wot_types.specs.Scope.{matches_in};
ghost use Rattle.wot_types.specs.Expression.{Tree};
ghost use Rattle.wot_types.specs.Bytes.{other_case};
ghost use Rattle.wot_types.specs.ExpressionMatch.{MatchesIn};
ghost use Rattle.wot_regex.specs.Searching.{Searching};
ghost use Rattle.wot_regex.specs.Table.{nodes_of};
ghost use Rattle.wot_regex.specs.Gathering.{all_gathered, all_noted, all_spread, back_at, back_start, gathered, is_between, noted, spread_by};
ghost use Rattle.wot_regex.specs.Reaching.{top};
ghost use Rattle.wot_regex.specs.declared.reach.Reach.{Reach};

use crate::expr::Expr;
use crate::followers::search_long;
use crate::node::Node;
use crate::nodes::ROOM;
use crate::reach::{Place, Reach};
use crate::set::PLACES;
use crate::stack::{DEPTH, Stack};

/// From so many bytes on a text is searched by sets. To begin that takes as long as the walks take for some three hundred bytes.
const LONG: usize = 512;

/// Whether the expression matches somewhere in the text, by bytes and without regard to ASCII case.
pub fn matches(expr: &Expr, text: &[u8]) -> bool
    ensures value { result ≡ matches_in expr.now text.now }
    ensures means { IsTrue result ↔ MatchesIn expr.now text.now }
{
    let nodes = expr.nodes();
    let mut cells = [Reach::NONE; ROOM];
    search(nodes, &mut cells[..nodes.len()], true, text)
}

/// Whether a match ends in the rest of a text, at whose first place the table has these cells. They move along.
fn search(nodes: &[Node], cells: &mut [Reach], start: bool, rest: &[u8]) -> bool
    requires same { length cells.old ≡ length nodes.now }
    requires room { length nodes.now ≤ ROOM }
    ensures { (tree : Tree) (found : Bool) → nodes.now ≡ nodes_of tree → Searching tree cells.old start rest.now found → result ≡ found }
{
    if nodes.len() <= PLACES && LONG <= rest.len() {
        return search_long(nodes, cells, start, rest);
    }
    search_by_walks(nodes, cells, start, rest)
}

/// The same, by two walks for each byte.
fn search_by_walks(nodes: &[Node], cells: &mut [Reach], start: bool, rest: &[u8]) -> bool
    requires same { length cells.old ≡ length nodes.now }
    requires room { length nodes.now ≤ ROOM }
    ensures { (tree : Tree) (found : Bool) → nodes.now ≡ nodes_of tree → Searching tree cells.old start rest.now found → result ≡ found }
{
    let mut start = start;
    for b in rest {
        let reach = gather(nodes, cells, Place { start, end: false });
        if reach.exits(true) {
            return true;
        }
        spread(nodes, cells, *b);
        start = false;
    }
    gather(nodes, cells, Place { start, end: true }).exits(true)
}

/// What the whole reaches at a place. Behind it the cell of each part has what the first of the parts that it is made of reaches.
pub fn gather(nodes: &[Node], cells: &mut [Reach], place: Place) -> Reach
    requires same { length cells.old ≡ length nodes.now }
    requires room { length nodes.now ≤ ROOM }
    ensures reached { result ≡ top (all_gathered place nodes.now cells.old []) }
    ensures cells { cells.new ≡ all_noted place nodes.now cells.old [] }
{
    let mut stack = Stack::new();
    for (i, node) in nodes.iter().enumerate() {
        cells[i] = gather_one(*node, cells[i], place, &mut stack);
    }
    stack.pop()
}

/// What the whole reaches at a place.
pub fn reach_at(nodes: &[Node], cells: &[Reach], place: Place) -> Reach
    requires same { length cells.now ≡ length nodes.now }
    requires room { length nodes.now ≤ ROOM }
    ensures { result ≡ top (all_gathered place nodes.now cells.now []) }
{
    let mut stack = Stack::new();
    for (i, node) in nodes.iter().enumerate() {
        gather_one(*node, cells[i], place, &mut stack);
    }
    stack.pop()
}

#[inline(always)]
fn gather_one(node: Node, cell: Reach, place: Place, stack: &mut Stack) -> Reach
    requires { length stack.old < DEPTH }
    ensures cell { result ≡ noted node cell stack.old }
    ensures reached { stack.new ≡ gathered place node cell stack.old }
{
    match node {
        Node::Nothing => stack.push(Reach::passing(true)),
        Node::Start => stack.push(Reach::passing(place.start)),
        Node::End => stack.push(Reach::passing(place.end)),
        Node::Any | Node::Byte(_) | Node::Range { .. } => stack.push(cell),
        Node::Member { .. } => {}
        Node::Followed => {
            let next = stack.pop();
            let first = stack.last();
            stack.replace(first.followed(next));
            return first;
        }
        Node::Either => {
            let other = stack.pop();
            let one = stack.last();
            stack.replace(one.either(other));
        }
        Node::AnyNumber => {
            let part = stack.last();
            stack.replace(part.optional());
            return part;
        }
        Node::AtLeastOne => {
            let part = stack.last();
            stack.replace(part);
            return part;
        }
        Node::AtMostOne => {
            let part = stack.last();
            stack.replace(part.optional());
        }
    }
    cell
}

/// Moves the marks by a byte. A match may begin at its place.
pub fn spread(nodes: &[Node], cells: &mut [Reach], b: u8)
    requires same { length cells.old ≡ length nodes.now }
    requires room { length nodes.now ≤ ROOM }
    ensures { cells.new ≡ (all_spread b nodes.now cells.old back_start).cells }
{
    let mut entries = Stack::new();
    entries.push(Reach::marked(true));
    let mut member = false;
    for i in (0..nodes.len()).rev() {
        cells[i] = spread_one(nodes[i], cells[i], b, &mut entries, &mut member);
    }
}

#[inline(always)]
fn spread_one(node: Node, cell: Reach, b: u8, entries: &mut Stack, member: &mut bool) -> Reach
    requires { length entries.old + 1 < DEPTH }
    ensures { (cells : List Reach) → back_at entries.new member.new (result ∷ cells) ≡ spread_by b node cell (back_at entries.old member.old cells) }
{
    if let Node::Member { first, last } = node {
        *member = *member || is_between(first, last, b);
        return Reach::NONE;
    }
    let entry = entries.last().ended;
    match node {
        Node::Followed => {
            entries.replace(Reach::marked(entry));
            entries.push(Reach::marked(cell.exits(entry)));
            return Reach::NONE;
        }
        Node::Either => {
            entries.replace(Reach::marked(entry));
            entries.push(Reach::marked(entry));
            return Reach::NONE;
        }
        Node::AnyNumber | Node::AtLeastOne => {
            entries.replace(Reach::marked(entry || cell.ended));
            return Reach::NONE;
        }
        Node::AtMostOne => {
            entries.replace(Reach::marked(entry));
            return Reach::NONE;
        }
        _ => {}
    }
    entries.pop();
    match node {
        Node::Any => Reach::marked(entry),
        Node::Byte(a) => Reach::marked(entry && a.eq_ignore_ascii_case(&b)),
        Node::Range { negated } => {
            let taken = *member != negated;
            *member = false;
            Reach::marked(entry && taken)
        }
        _ => Reach::NONE,
    }
}

/// Whether a member of a range has the byte or its other case.
fn is_between(first: u8, last: u8, b: u8) -> bool
    ensures { result ≡ is_between first last b }
{
    let other = other_case(b);
    first <= b && b <= last || first <= other && other <= last
}

fn other_case(b: u8) -> u8
    ensures { result ≡ other_case b }
{
    if b.is_ascii_uppercase() {
        b + 32
    } else if b.is_ascii_lowercase() {
        b - 32
    } else {
        b
    }
}
