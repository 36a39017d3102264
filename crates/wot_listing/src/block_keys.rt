//! The keys of the blocks that have ended.

ghost use Rattle.std.specs.Prelude.{◌≡◌, IfOk, OnOk};
ghost use Rattle.std.specs.FinMap as map;

use crate::placed_keys::PlacedKeys;
use crate::rising_keys::RisingKeys;
use std::alloc::Global;
use std::marker::Model;
use wot_types::{Key, KeyId, Keys, Mem};

/// Keys by key ID, in rising order.
#[derive(Debug, Drop)]
pub struct BlockKeys {
    kept: KeptKeys,
}

/// As long as key IDs rise, as in a listing that is sorted by them, none has to be looked for.
#[derive(Debug, Drop)]
enum KeptKeys {
    Rising(RisingKeys),
    Placed(PlacedKeys),
}

impl Model for BlockKeys {
    ghost use Rattle.std.specs.Ordering.{nat_cmp};
    ghost use Rattle.std.specs.FinMap as map;
    ghost use Rattle.std.specs.Coded.{coded_ℕ};
    ghost use Rattle.wot_types.specs.declared.key.Key.{Key};
    ghost use Rattle.wot_types.specs.contracts.key.Key as key_struct;
    ghost use Rattle.wot_listing.specs.KeptKeys.{keys_of_kept};

    ghost Value = { map.FinMap nat_cmp Key };

    ghost coded = { map.code coded_ℕ key_struct.the_row.coded };

    ghost view = { λ k. keys_of_kept k.kept };
}

impl BlockKeys {
    /// No keys, which takes no memory.
    pub fn new(alloc: Global) -> BlockKeys
        ensures { result ≡ map.empty }
    {
        BlockKeys {
            kept: KeptKeys::Rising(RisingKeys::new(alloc)),
        }
    }

    /// Whether a key has this key ID.
    pub fn contains(&self, id: KeyId) -> bool
        ensures { result ≡ map.contains_key self.now id }
    {
        match &self.kept {
            KeptKeys::Rising(rising) => rising.contains(id),
            KeptKeys::Placed(placed) => placed.contains(id),
        }
    }

    /// Sets the key of a key ID.
    pub fn insert(&mut self, id: KeyId, key: Key) -> Result<(), Mem>
        ensures { OnOk result (self.new ≡ map.insert self.old id key) }
    {
        match &mut self.kept {
            KeptKeys::Rising(rising) => {
                if rising.are_below(id) {
                    return rising.push(id, key);
                }
                let mut placed = rising.take_placed()?;
                placed.insert(id, key)?;
                self.kept = KeptKeys::Placed(placed);
                Ok(())
            }
            KeptKeys::Placed(placed) => placed.insert(id, key),
        }
    }

    /// The keys in rising order of key ID.
    pub fn into_keys(self, alloc: Global) -> Result<Keys, Mem>
        ensures { IfOk result (λ keys. keys ≡ map.values self) }
    {
        match self.kept {
            KeptKeys::Rising(rising) => rising.into_keys(alloc),
            KeptKeys::Placed(placed) => placed.into_keys(alloc),
        }
    }
}
