//! Many keys on their way into a table that has none.

ghost use Rattle.std.specs.Prelude.{◌≡◌, None, All, IfOk, IsTrue, map};
ghost use Rattle.std.specs.FinMap as finmap;
ghost use Rattle.std.specs.List.Sorted.{IsStrictlyIncreasing};
ghost use Rattle.wot_types.specs.Keyring.{id_of, with_key, with_keys};
ghost use Rattle.wot_types.specs.WellFormed.{IsWellFormed};

use crate::held::Held;
use crate::sums::Sums;
use std::alloc::Global;
use std::marker::Model;
use wot_types::{Key, KeyId, Keys, Mem};

/// Keys in the order in which they came, and the sums over them.
#[derive(Drop)]
pub struct Batch {
    pub(crate) alloc: Global,
    pub(crate) keys: Vec<(KeyId, Held)>,
    pub(crate) sums: Sums,
}

impl Model for Batch {
    ghost use Rattle.std.specs.Prelude.{reverse};
    ghost use Rattle.std.specs.Ordering.{nat_cmp};
    ghost use Rattle.std.specs.FinMap as map;
    ghost use Rattle.std.specs.Coded.{coded_ℕ};
    ghost use Rattle.wot_types.specs.declared.key.Key.{Key as KeySeen};
    ghost use Rattle.wot_types.specs.contracts.key.Key as key_struct;
    ghost use Rattle.wot_table.specs.Weights.{IsSummed};

    ghost Value = { map.FinMap nat_cmp KeySeen };

    ghost coded = { map.code coded_ℕ key_struct.the_row.coded };

    ghost view = { λ b. map.from_entries (reverse b.keys.items) };

    ghost invariant = { λ b. IsSummed (map.from_entries (reverse b.keys.items)) b.sums };
}

impl Batch {
    /// No keys, and room for so many.
    fn new(alloc: Global, room: usize) -> Result<Batch, Mem>
        ensures { IfOk result (λ batch. batch ≡ finmap.empty) }
    {
        Ok(Batch {
            alloc,
            keys: Vec::with_capacity(alloc, room)?,
            sums: Sums {
                users: 0,
                certs: 0,
                text: 0,
            },
        })
    }

    /// These keys. As they move into it, the room that they had is given back.
    pub fn of(alloc: Global, keys: Keys) -> Result<Batch, Mem>
        requires well_formed { All IsWellFormed keys }
        requires rising { IsStrictlyIncreasing (map id_of keys) }
        ensures { IfOk result (λ batch. batch ≡ with_keys finmap.empty keys) }
    {
        let mut left = keys.into_vec();
        left.reverse();
        let mut batch = Batch::new(alloc, left.len())?;
        while let Some(key) = left.pop() {
            batch = batch.put(key)?;
            if left.len() < left.capacity() / 4 * 3 {
                left.shrink_to_fit();
            }
        }
        Ok(batch)
    }

    /// Adds a key whose key ID no former one has.
    fn put(self, key: Key) -> Result<Batch, Mem>
        requires well_formed { IsWellFormed key }
        requires absent { finmap.get self (id_of key) ≡ None }
        ensures { IfOk result (λ new. new ≡ with_key self key) }
    {
        let Batch {
            alloc,
            mut keys,
            sums,
        } = self;
        let id = key.fpr.key_id();
        let held = Held::hold(alloc, key)?;
        let _fewer_than_2_63 = keys.len();
        let sums = sums.plus(held.weight());
        keys.push((id, held))?;
        Ok(Batch { alloc, keys, sums })
    }
}

/// Whether each key ID is above the one before it.
pub fn are_rising(keys: &[Key]) -> bool
    ensures { IsTrue result → IsStrictlyIncreasing (map id_of keys.now) }
{
    let mut i = 1;
    while i < keys.len() {
        let id = keys[i].fpr.key_id().0;
        let before = keys[i - 1].fpr.key_id().0;
        if id <= before {
            return false;
        }
        i += 1;
    }
    true
}
