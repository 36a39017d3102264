//! What `compact` does to a store.

ghost use Rattle.std.specs.Prelude.{◌≡◌};
ghost use Rattle.wot_types.specs.Compaction.{compacted_store, last_epoch};
ghost use Rattle.wot_types.specs.Store.{Store};

/// The state stays and the epoch is the next one; in the last epoch the store stays as it is.
pub fn stores_move_to_the_next_epoch()
    ensures state { (s : Store) → (compacted_store s).state ≡ s.state }
    ensures epoch { (s : Store) → s.epoch ≡ 7 → (compacted_store s).epoch ≡ 8 }
    ensures last { (s : Store) → s.epoch ≡ last_epoch → compacted_store s ≡ s }
{}
