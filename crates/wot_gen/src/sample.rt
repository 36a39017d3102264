//! The keys and the entries of a whole sample.

ghost use Rattle.std.specs.Prelude.{◌≡◌, IfOk};
ghost use Rattle.wot_types.specs.Accepted.{AreImportable};
ghost use Rattle.wot_types.specs.Payload.{AreSettable};
ghost use Rattle.wot_types.specs.Sample.{sample_entries, sample_keys};

use crate::one_key::key;
use crate::ownertrust::entry;
use std::alloc::Global;
use wot_types::{Entries, Keys, Mem};

/// The first `n` keys of a seed, in rising order of key ID.
pub fn keys(alloc: Global, seed: u64, n: u32) -> Result<Keys, Mem>
    ensures made { IfOk result (λ keys. keys ≡ sample_keys seed n) }
    ensures importable { IfOk result AreImportable }
{
    let mut keys = Keys::new(alloc);
    for i in 0..n {
        keys.push(key(alloc, seed, i, n)?)?;
    }
    Ok(keys)
}

/// The ownertrust entries of those keys, in their order.
pub fn entries(alloc: Global, seed: u64, n: u32) -> Result<Entries, Mem>
    ensures made { IfOk result (λ entries. entries ≡ sample_entries seed n) }
    ensures settable { IfOk result AreSettable }
{
    let mut entries = Entries::new(alloc);
    for i in 0..n {
        if let Some(entry) = entry(seed, i, n) {
            entries.push(entry)?;
        }
    }
    Ok(entries)
}
