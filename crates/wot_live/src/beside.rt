//! A map that is walked beside keys that rise.

ghost use Rattle.std.specs.Prelude.{◌≡◌};
ghost use Rattle.std.specs.FinMap as map;
ghost use Rattle.std.specs.FinMap.{FinMap};
ghost use Rattle.std.specs.Option.{option_copied};
ghost use Rattle.std.specs.Ordering.{nat_cmp};
ghost use Rattle.wot_live.specs.Ahead.{IsAhead, IsFrom};

use std::collections::btree_map::Iter;
use std::marker::Model;
use wot_types::KeyId;

/// The entries of a map that are still ahead, in rising order of their keys. The first of them is at hand already, so that it can be left for a later key.
#[derive(Drop)]
pub struct Beside<'a, V> {
    ahead: Option<(&'a KeyId, &'a V)>,
    left: Iter<'a, KeyId, V>,
}

impl<'a, V> Model for Beside<'a, V> {
    ghost use Rattle.std.specs.Prelude.{ℕ, List};
    ghost use Rattle.wot_live.specs.Ahead.{entries_left};

    ghost Value = { List (ℕ × V) };

    ghost view = { λ b. entries_left b.ahead b.left };
}

impl<'a, V> Beside<'a, V> {
    /// All of these entries are ahead.
    pub fn of(entries: Iter<'a, KeyId, V>) -> Beside<'a, V>
        ensures { result ≡ entries.entry }
    {
        let mut left = entries;
        let ahead = left.next();
        Beside { ahead, left }
    }

    /// What the map has at a key, which is not below one that was asked for before.
    pub fn at(&mut self, id: KeyId) -> Option<&'a V>
        ensures found { (m : FinMap nat_cmp V) → IsAhead m id self.old → option_copied result ≡ map.get m id }
        ensures ahead { (m : FinMap nat_cmp V) → IsAhead m id self.old → IsAhead m id self.new }
    {
        self.pass_below(id);
        match self.ahead {
            Some((key, value)) => { if *key == id { Some(value) } else { None } }
            None => None,
        }
    }

    /// Passes the entries of lower keys.
    fn pass_below(&mut self, id: KeyId)
        ensures from { IsFrom id self.new }
        ensures ahead { (m : FinMap nat_cmp V) → IsAhead m id self.old → IsAhead m id self.new }
    {
        while let Some((key, _)) = self.ahead {
            if id <= *key {
                return;
            }
            self.ahead = self.left.next();
        }
    }
}
