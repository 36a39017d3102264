//! Keys whose key IDs rise, in the order in which they come.

ghost use Rattle.std.specs.Prelude.{◌≡◌, true, IfOk, OnOk};
ghost use Rattle.std.specs.FinMap as map;
ghost use Rattle.wot_listing.specs.Rising.{AreBelow};

use crate::placed_keys::PlacedKeys;
use std::alloc::Global;
use std::marker::Model;
use std::mem;
use wot_types::{Key, KeyId, Keys, List, Mem};

/// Keys by key ID, each above those before it.
#[derive(Debug, Drop)]
pub struct RisingKeys {
    pairs: Vec<(KeyId, Key)>,
}

impl Model for RisingKeys {
    ghost use Rattle.std.specs.Ordering.{nat_cmp};
    ghost use Rattle.std.specs.FinMap as map;
    ghost use Rattle.std.specs.List.Sorted.{IsStrictlySortedBy};
    ghost use Rattle.std.specs.Map.{keys_of};
    ghost use Rattle.std.specs.Coded.{coded_ℕ};
    ghost use Rattle.wot_types.specs.declared.key.Key.{Key};
    ghost use Rattle.wot_types.specs.contracts.key.Key as key_struct;

    ghost Value = { map.FinMap nat_cmp Key };

    ghost coded = { map.code coded_ℕ key_struct.the_row.coded };

    ghost view = { λ k. map.from_entries k.pairs.items };

    ghost invariant = { λ k. IsStrictlySortedBy nat_cmp (keys_of k.pairs.items) };
}

impl RisingKeys {
    /// No keys, which takes no memory.
    pub fn new(alloc: Global) -> RisingKeys
        ensures { result ≡ map.empty }
    {
        RisingKeys {
            pairs: Vec::new(alloc),
        }
    }

    /// Whether all are below this key ID.
    pub fn are_below(&self, id: KeyId) -> bool
        ensures { result ≡ true → AreBelow self.now id }
    {
        match self.pairs.last() {
            Some((last, _)) => *last < id,
            None => true,
        }
    }

    /// Whether a key has this key ID. All are looked at only where it isn't above them, which a listing asks once: then it no longer rises.
    pub fn contains(&self, id: KeyId) -> bool
        ensures { result ≡ map.contains_key self.now id }
    {
        if self.are_below(id) {
            return false;
        }
        self.pairs.iter().any(|pair| pair.0 == id)
    }

    /// Adds a key above all others.
    pub fn push(&mut self, id: KeyId, key: Key) -> Result<(), Mem>
        requires { AreBelow self.old id }
        ensures { OnOk result (self.new ≡ map.insert self.old id key) }
    {
        self.pairs.push((id, key))?;
        Ok(())
    }

    /// Takes all out, to go on with keys in any order.
    pub fn take_placed(&mut self) -> Result<PlacedKeys, Mem>
        ensures { IfOk result (λ placed. placed ≡ self.old) }
    {
        let alloc = *self.pairs.allocator();
        let pairs = mem::replace(&mut self.pairs, Vec::new(alloc));
        let mut placed = PlacedKeys::new(alloc);
        for (id, key) in pairs {
            placed.insert(id, key)?;
        }
        Ok(placed)
    }

    /// The keys in rising order of key ID.
    pub fn into_keys(self, alloc: Global) -> Result<Keys, Mem>
        ensures { IfOk result (λ keys. keys ≡ map.values self) }
    {
        let mut all = List::with_capacity(alloc, self.pairs.len())?;
        for (_, key) in self.pairs {
            all.push(key)?;
        }
        Ok(all)
    }
}
