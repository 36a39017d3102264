//! Keys by key ID, in any order in which they come.

ghost use Rattle.std.specs.Prelude.{◌≡◌, ◌≢◌, ℕ, IfOk, OnOk};
ghost use Rattle.std.specs.FinMap as map;
ghost use Rattle.wot_listing.specs.Places.{key_at};

use std::alloc::Global;
use std::collections::BTreeMap;
use std::marker::Model;
use wot_types::{Key, KeyId, Keys, List, Mem};

/// Keys by key ID, in rising order.
///
/// The keys stand in the order in which they came, and a map has their places: a map of the keys themselves would leave
/// much of its room empty.
#[derive(Debug, Drop)]
pub struct PlacedKeys {
    places: BTreeMap<KeyId, usize>,
    keys: Vec<Option<Key>>,
}

impl Model for PlacedKeys {
    ghost use Rattle.std.specs.Ordering.{nat_cmp};
    ghost use Rattle.std.specs.FinMap as map;
    ghost use Rattle.std.specs.Coded.{coded_ℕ};
    ghost use Rattle.wot_types.specs.declared.key.Key.{Key};
    ghost use Rattle.wot_types.specs.contracts.key.Key as key_struct;
    ghost use Rattle.wot_listing.specs.Places.{IsPlaced, keys_at};

    ghost Value = { map.FinMap nat_cmp Key };

    ghost coded = { map.code coded_ℕ key_struct.the_row.coded };

    ghost view = { λ k. keys_at (map.from_entries k.places.entries) k.keys.items };

    ghost invariant = { λ k. IsPlaced (map.from_entries k.places.entries) k.keys.items };
}

impl PlacedKeys {
    /// No keys, which takes no memory.
    pub fn new(alloc: Global) -> PlacedKeys
        ensures { result ≡ map.empty }
    {
        PlacedKeys {
            places: BTreeMap::new(alloc),
            keys: Vec::new(alloc),
        }
    }

    /// Whether a key has this key ID.
    pub fn contains(&self, id: KeyId) -> bool
        ensures { result ≡ map.contains_key self.now id }
    {
        self.places.contains_key(&id)
    }

    /// Sets the key of a key ID.
    pub fn insert(&mut self, id: KeyId, key: Key) -> Result<(), Mem>
        ensures { OnOk result (self.new ≡ map.insert self.old id key) }
    {
        let place = self.keys.len();
        self.keys.push(Some(key))?;
        self.places.insert(id, place)?;
        Ok(())
    }

    /// The keys in rising order of key ID.
    pub fn into_keys(self, alloc: Global) -> Result<Keys, Mem>
        ensures { IfOk result (λ keys. keys ≡ map.values self) }
    {
        let PlacedKeys { places, mut keys } = self;
        let mut all = List::with_capacity(alloc, places.len())?;
        for (_, place) in places {
            if let Some(key) = take_at(&mut keys, place) {
                all.push(key)?;
            }
        }
        Ok(all)
    }
}

/// Takes out the key at a place, if one is there.
fn take_at(keys: &mut Vec<Option<Key>>, place: usize) -> Option<Key>
    ensures found { result ≡ key_at keys.old.items place }
    ensures others { (other : ℕ) → other ≢ place → key_at keys.new.items other ≡ key_at keys.old.items other }
{
    match keys.get_mut(place) {
        Some(key) => key.take(),
        None => None,
    }
}
