//! Engines to begin with.

ghost use Rattle.std.specs.Prelude.{◌≡◌, All, IfOk};
ghost use Rattle.std.specs.FinMap as map;
ghost use Rattle.std.specs.List.{list_any};
ghost use Rattle.wot_types.specs.Keyring.{id_of};
ghost use Rattle.wot_types.specs.WellFormed.{IsWellFormed};

use std::alloc::Global;
use std::sync::ledger::Ledger;
use std::test::Fail;
use wot_listing::Listing;
use wot_live::Engine;
use wot_table::Table;
use wot_types::{Entries, Entry, Fpr, KeyId, Keys, Steps, Trust};

/// A, and B, which ends at 5000 and which A certified.
pub const TWO_KEYS: &[u8] = b"\
pub:-:255:22:00000000000000AA:1000:::-:::scSC:
fpr:::::::::00000000000000000000000000000000000000AA:
uid:-::::1000::::A <a@example.org>:
pub:-:255:22:00000000000000BB:1000:5000::-:::scSC:
fpr:::::::::00000000000000000000000000000000000000BB:
uid:-::::1000::::B <b@example.org>:
sig:!:::00000000000000AA:2000:::::13x:";

/// The fingerprint A.
pub const A: &[u8] = b"00000000000000000000000000000000000000AA";

/// The fingerprint B.
pub const B: &[u8] = b"00000000000000000000000000000000000000BB";

/// The keys of a listing, well formed as the engine asks.
pub fn keys_of(alloc: Global, listing: &[u8]) -> Result<Keys, Fail>
    ensures { IfOk result (λ keys. All IsWellFormed keys) }
{
    let mut reader = Listing::new(alloc)?;
    for line in listing.split(|b| *b == b'\n') {
        reader.feed_line(line)?;
    }
    Ok(reader.finish()?.keys)
}

/// That this fingerprint has this ownertrust.
pub fn trusted(alloc: Global, fpr: &[u8], trust: Trust) -> Result<Entries, Fail> {
    let fpr = Fpr::from_hex(fpr).ok_or("a fingerprint")?;
    let mut entries = Entries::new(alloc);
    entries.push(Entry {
        fpr,
        trust,
        disabled: false,
    })?;
    Ok(entries)
}

/// Whether there is a key of that key ID.
pub fn is_there(table: &Table, id: KeyId) -> bool
    ensures { result ≡ map.contains_key table.now id }
{
    table.keyblock(id).is_some()
}

/// Whether there is a key of the key ID of one of these.
fn is_any_there(table: &Table, keys: &Keys) -> bool
    ensures { result ≡ list_any (λ key. map.contains_key table.now (id_of key)) keys.now }
{
    keys.as_slice()
        .iter()
        .any(|key| is_there(table, key.fpr.key_id()))
}

/// The engine with new keys, and with the ownertrust of a fingerprint.
pub fn put<L: Ledger>(
    engine: Engine,
    keys: Keys,
    entries: Entries,
    steps: &mut Steps<L>,
) -> Result<Engine, Fail>
    requires well_formed { All IsWellFormed keys }
{
    if is_any_there(engine.table(), &keys) {
        return Err(Fail::new("a key is there already"));
    }
    Ok(engine.put(keys, entries, steps)?)
}

/// The engine of a listing, where A is trusted ultimately.
pub fn filled<L: Ledger>(
    alloc: Global,
    listing: &[u8],
    steps: &mut Steps<L>,
) -> Result<Engine, Fail> {
    let engine = Engine::new(alloc)?;
    let keys = keys_of(alloc, listing)?;
    let entries = trusted(alloc, A, Trust::Ultimate)?;
    put(engine, keys, entries, steps)
}
