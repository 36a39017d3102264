//! The index of the keys that are held.

ghost use Rattle.std.specs.Prelude.{◌≡◌, ℕ, true, IfOk};
ghost use Rattle.std.specs.FinMap as finmap;
ghost use Rattle.wot_index.specs.Indexed.{has};
ghost use Rattle.wot_table.specs.Headings.{AgreesWith, IsInRange};

use crate::heading::Heading;
use crate::held::Held;
use std::alloc::Global;
use std::collections::BTreeMap;
use wot_index::Index;
use wot_types::{KeyId, Mem};

/// The index of these keys.
pub fn index_of(alloc: Global, heading: Heading, keys: &BTreeMap<KeyId, Held>) -> Result<Index, Mem>
    ensures agrees { IfOk result (λ index. AgreesWith (has index) heading (finmap.from_entries keys.now.entries)) }
    ensures in_range { IfOk result (λ index. (n k : ℕ) → has index n k ≡ true → IsInRange heading n) }
{
    let mut pairs = Vec::new(alloc);
    for (id, held) in keys.iter() {
        held.push_pairs(heading, *id, &mut pairs)?;
    }
    Index::of(alloc, pairs)
}
