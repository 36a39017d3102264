//! Truth values, of which the last is taken back first.

ghost use Rattle.std.specs.Prelude.{◌≡◌, ◌<◌, ◌∷◌, [], length, MatchOption, ◌==◌};

use std::marker::Model;
use wot_types::MOST_SCOPE;

/// No more than a scope has bytes.
#[derive(Drop)]
pub struct Flags {
    items: [bool; MOST_SCOPE],
    len: usize,
}

impl Model for Flags {
    ghost use Rattle.std.specs.Prelude.{Bool, List, reverse, take, ◌≤◌};
    ghost use Rattle.wot_types.specs.declared.limit.TheConstants.{MOST_SCOPE};

    ghost Value = { List Bool };

    ghost view = { λ f. reverse (take f.len f.items) };

    ghost invariant = { λ f. f.len ≤ MOST_SCOPE };
}

impl Flags {
    pub fn new() -> Flags
        ensures { result ≡ [] }
    {
        Flags {
            items: [false; MOST_SCOPE],
            len: 0,
        }
    }

    pub fn is_empty(&self) -> bool
        ensures { result ≡ (length self.now == 0) }
    {
        self.len == 0
    }

    pub fn push(&mut self, flag: bool)
        requires { length self.old < MOST_SCOPE }
        ensures { self.new ≡ flag ∷ self.old }
    {
        self.items[self.len] = flag;
        self.len += 1;
    }

    pub fn pop(&mut self) -> Option<bool>
        ensures { MatchOption result ((self.old ≡ []) × (self.new ≡ [])) (λ flag. self.old ≡ flag ∷ self.new) }
    {
        if self.len == 0 {
            return None;
        }
        self.len -= 1;
        Some(self.items[self.len])
    }
}
