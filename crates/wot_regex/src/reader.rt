//! Reading an expression from left to right, byte by byte.

ghost use Rattle.std.specs.Prelude.{◌≡◌, ◌≤◌, ◌<◌, ◌+◌, length};
ghost use Rattle.wot_regex.specs.Taking.{atom_added, atom_ended, begun, expression_ended, group_ended, group_opened, member_added, range_added, range_ended, reader_start, repeated_as, table_of, taken, taken_behind, taken_between, taken_dashed, taken_opened, taken_plain, when};

use crate::flags::Flags;
use crate::node::Node;
use crate::nodes::{Nodes, ROOM};
use wot_types::MOST_SCOPE;

/// Where the bytes so far end.
#[derive(Clone, Copy, Debug, PartialEq, Eq)]
pub enum Mode {
    /// Outside ranges.
    Plain,
    /// Behind a backslash.
    Escape,
    /// Behind the `[` of a range.
    Opened,
    /// Behind `[^`.
    OpenedNegated,
    /// Behind the members of a range so far.
    Between,
    /// Behind a byte of the next member.
    Behind(u8),
    /// Behind a byte of the next member and `-`.
    Dashed(u8),
}

/// An expression that goes on. Its parts so far stand in the table: of the expressions around it, the one before its last `|` and its
/// last branch, from the outermost inwards; then the same of itself; then an atom that something may follow.
#[derive(Drop)]
pub struct Reader {
    nodes: Nodes,
    /// Of the expressions around this one, whether there is one before the last `|`.
    outer: Flags,
    /// The same of this one.
    barred: bool,
    /// Whether there is an atom that `*`, `+` or `?` may follow.
    has_atom: bool,
    mode: Mode,
}

impl Reader {
    pub fn new() -> Reader
        ensures { result ≡ reader_start }
    {
        let mut nodes = Nodes::new();
        nodes.push(Node::Nothing);
        Reader {
            nodes,
            outer: Flags::new(),
            barred: false,
            has_atom: false,
            mode: Mode::Plain,
        }
    }

    /// One byte more. It is false where no expression goes on so.
    pub fn take(&mut self, b: u8) -> bool
        requires room { length self.old.nodes + 3 ≤ ROOM }
        requires depth { length self.old.outer < MOST_SCOPE }
        ensures value { when result self.new ≡ taken self.old b }
        ensures grows { length self.new.nodes ≤ length self.old.nodes + 3 }
        ensures deeper { length self.new.outer ≤ length self.old.outer + 1 }
    {
        match self.mode {
            Mode::Plain => return self.take_plain(b),
            Mode::Escape => self.add_atom(Node::Byte(b)),
            Mode::Opened => self.open_range(b),
            Mode::OpenedNegated => self.add_range(true, b),
            Mode::Between => self.take_between(b),
            Mode::Behind(first) => self.take_behind(first, b),
            Mode::Dashed(first) => return self.take_dashed(first, b),
        }
        true
    }

    /// The table of the expression, if it may end here.
    pub fn finish(self) -> Option<Nodes>
        requires { length self.nodes + 2 ≤ ROOM }
        ensures { result ≡ table_of self }
    {
        let mut reader = self;
        if reader.mode != Mode::Plain || !reader.outer.is_empty() {
            return None;
        }
        reader.end_expression();
        let Reader { nodes, .. } = reader;
        Some(nodes)
    }

    /// A byte outside ranges.
    fn take_plain(&mut self, b: u8) -> bool
        requires room { length self.old.nodes + 3 ≤ ROOM }
        requires depth { length self.old.outer < MOST_SCOPE }
        ensures value { when result self.new ≡ taken_plain self.old b }
        ensures grows { length self.new.nodes ≤ length self.old.nodes + 3 }
        ensures deeper { length self.new.outer ≤ length self.old.outer + 1 }
    {
        match b {
            b'|' => self.begin_branch(),
            b'(' => self.open_group(),
            b')' => return self.close_group(),
            b'[' => self.mode = Mode::Opened,
            b'.' => self.add_atom(Node::Any),
            b'^' => self.add_atom(Node::Start),
            b'$' => self.add_atom(Node::End),
            b'\\' => self.mode = Mode::Escape,
            b'*' => return self.repeat(Node::AnyNumber),
            b'+' => return self.repeat(Node::AtLeastOne),
            b'?' => return self.repeat(Node::AtMostOne),
            _ => self.add_atom(Node::Byte(b)),
        }
        true
    }

    /// The last atom becomes a piece of the branch.
    fn end_atom(&mut self)
        requires { length self.old.nodes + 1 ≤ ROOM }
        ensures { self.new ≡ atom_ended self.old }
    {
        if self.has_atom {
            self.nodes.push(Node::Followed);
            self.has_atom = false;
        }
    }

    /// The last branch becomes one of the expression.
    fn end_expression(&mut self)
        requires { length self.old.nodes + 2 ≤ ROOM }
        ensures { self.new ≡ expression_ended self.old }
    {
        self.end_atom();
        if self.barred {
            self.nodes.push(Node::Either);
        }
    }

    fn begin_branch(&mut self)
        requires { length self.old.nodes + 3 ≤ ROOM }
        ensures { self.new ≡ begun self.old }
    {
        self.end_expression();
        self.nodes.push(Node::Nothing);
        self.barred = true;
    }

    fn open_group(&mut self)
        requires room { length self.old.nodes + 2 ≤ ROOM }
        requires depth { length self.old.outer < MOST_SCOPE }
        ensures { self.new ≡ group_opened self.old }
    {
        self.end_atom();
        self.outer.push(self.barred);
        self.nodes.push(Node::Nothing);
        self.barred = false;
    }

    fn close_group(&mut self) -> bool
        requires { length self.old.nodes + 2 ≤ ROOM }
        ensures value { when result self.new ≡ group_ended self.old self.old.outer }
        ensures grows { length self.new.nodes ≤ length self.old.nodes + 2 }
        ensures deeper { length self.new.outer ≤ length self.old.outer + 1 }
    {
        self.end_expression();
        match self.outer.pop() {
            Some(barred) => {
                self.barred = barred;
                self.has_atom = true;
                true
            }
            None => false,
        }
    }

    fn repeat(&mut self, node: Node) -> bool
        requires { length self.old.nodes + 2 ≤ ROOM }
        ensures value { when result self.new ≡ repeated_as node self.old }
        ensures grows { length self.new.nodes ≤ length self.old.nodes + 2 }
        ensures deeper { length self.new.outer ≤ length self.old.outer + 1 }
    {
        if !self.has_atom {
            return false;
        }
        self.nodes.push(node);
        self.end_atom();
        true
    }

    fn add_atom(&mut self, node: Node)
        requires { length self.old.nodes + 2 ≤ ROOM }
        ensures { self.new ≡ atom_added node self.old }
    {
        self.end_atom();
        self.nodes.push(node);
        self.has_atom = true;
        self.mode = Mode::Plain;
    }

    /// The first byte of a range, or the `^` before it.
    fn open_range(&mut self, b: u8)
        requires { length self.old.nodes + 2 ≤ ROOM }
        ensures { self.new ≡ taken_opened self.old b }
    {
        if b == b'^' {
            self.mode = Mode::OpenedNegated;
        } else {
            self.add_range(false, b);
        }
    }

    fn add_range(&mut self, negated: bool, b: u8)
        requires { length self.old.nodes + 2 ≤ ROOM }
        ensures { self.new ≡ range_added negated b self.old }
    {
        self.end_atom();
        self.nodes.push(Node::Range { negated });
        self.mode = Mode::Behind(b);
    }

    fn add_member(&mut self, first: u8, last: u8)
        requires { length self.old.nodes + 1 ≤ ROOM }
        ensures { self.new ≡ member_added first last self.old }
    {
        self.nodes.push(Node::Member { first, last });
    }

    fn close_range(&mut self)
        ensures { self.new ≡ range_ended self.old }
    {
        self.has_atom = true;
        self.mode = Mode::Plain;
    }

    fn take_between(&mut self, b: u8)
        ensures { self.new ≡ taken_between self.old b }
    {
        if b == b']' {
            self.close_range();
        } else {
            self.mode = Mode::Behind(b);
        }
    }

    fn take_behind(&mut self, first: u8, b: u8)
        requires { length self.old.nodes + 1 ≤ ROOM }
        ensures { self.new ≡ taken_behind self.old first b }
    {
        if b == b'-' {
            self.mode = Mode::Dashed(first);
            return;
        }
        self.add_member(first, first);
        self.take_between(b);
    }

    fn take_dashed(&mut self, first: u8, b: u8) -> bool
        requires { length self.old.nodes + 2 ≤ ROOM }
        ensures value { when result self.new ≡ taken_dashed self.old first b }
        ensures grows { length self.new.nodes ≤ length self.old.nodes + 2 }
        ensures deeper { length self.new.outer ≤ length self.old.outer + 1 }
    {
        if b == b']' {
            self.add_member(first, first);
            self.add_member(b'-', b'-');
            self.close_range();
            return true;
        }
        if first > b {
            return false;
        }
        self.add_member(first, b);
        self.mode = Mode::Between;
        true
    }
}
