//! Pairs from the last to the first.

ghost use Rattle.std.specs.Iterator.{YieldsFirst, item_count};

use std::marker::Model;
use wot_types::KeyId;

/// Hands out the pairs from the last to the first, and gives back the room that they had.
#[derive(Drop)]
pub struct Falling {
    pub left: Vec<(u64, KeyId)>,
}

impl Model for Falling {
    ghost use Rattle.std.specs.Prelude.{ℕ, List, reverse};

    ghost Value = { List (ℕ × ℕ) };

    ghost view = { λ f. reverse f.left.items };
}

impl Iterator for Falling {
    type Item = (u64, KeyId);

    ghost next_gives = { YieldsFirst (λ left. left) };

    ghost remaining = { item_count (λ left. left) };

    fn next(&mut self) -> Option<(u64, KeyId)> {
        let pair = self.left.pop();
        if self.left.len() < self.left.capacity() / 4 * 3 {
            self.left.shrink_to_fit();
        }
        pair
    }

    fn size_hint(&self) -> (usize, Option<usize>) {
        (self.left.len(), Some(self.left.len()))
    }
}
