//! What parts reach, of which the last is taken back first.

ghost use Rattle.std.specs.Prelude.{◌≡◌, ◌<◌, ◌∷◌, [], length};
ghost use Rattle.wot_regex.specs.Reaching.{below, top};

use crate::nodes::ROOM;
use crate::reach::Reach;
use std::marker::Model;

/// As many as a walk over a table may need, which takes back one and adds two at each part.
pub const DEPTH: usize = ROOM + 2;

/// Each flag has an array of its own: one that was just written is read back at once, where a read of two that were written apart waits for both.
#[derive(Drop)]
pub struct Stack {
    passes: [bool; DEPTH],
    ended: [bool; DEPTH],
    len: usize,
}

impl Model for Stack {
    ghost use Rattle.std.specs.Prelude.{List, reverse, take, ◌≤◌};
    ghost use Rattle.wot_regex.specs.declared.reach.Reach.{Reach};
    ghost use Rattle.wot_regex.specs.declared.stack.TheConstants.{DEPTH};

    ghost Value = { List Reach };

    ghost use Rattle.wot_regex.specs.Reaching.{reaches};

    ghost view = { λ s. reverse (reaches (take s.len s.passes) (take s.len s.ended)) };

    ghost invariant = { λ s. s.len ≤ DEPTH };
}

impl Stack {
    pub fn new() -> Stack
        ensures { result ≡ [] }
    {
        Stack {
            passes: [false; DEPTH],
            ended: [false; DEPTH],
            len: 0,
        }
    }

    pub fn push(&mut self, reach: Reach)
        requires { length self.old < DEPTH }
        ensures { self.new ≡ reach ∷ self.old }
    {
        self.passes[self.len] = reach.passes;
        self.ended[self.len] = reach.ended;
        self.len += 1;
    }

    /// The last one, which stays; of an empty stack what reaches nothing.
    pub fn last(&self) -> Reach
        ensures { result ≡ top self.now }
    {
        if self.len == 0 {
            return Reach::NONE;
        }
        Reach {
            passes: self.passes[self.len - 1],
            ended: self.ended[self.len - 1],
        }
    }

    /// Puts one in place of the last.
    pub fn replace(&mut self, reach: Reach)
        ensures { self.new ≡ reach ∷ below self.old }
    {
        if self.len == 0 {
            self.push(reach);
            return;
        }
        self.passes[self.len - 1] = reach.passes;
        self.ended[self.len - 1] = reach.ended;
    }

    /// The last one; from an empty stack what reaches nothing.
    pub fn pop(&mut self) -> Reach
        ensures value { result ≡ top self.old }
        ensures others { self.new ≡ below self.old }
    {
        if self.len == 0 {
            return Reach::NONE;
        }
        self.len -= 1;
        Reach {
            passes: self.passes[self.len],
            ended: self.ended[self.len],
        }
    }
}
