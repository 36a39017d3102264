//! The keys that an edit names, behind those of a list.

ghost use Rattle.std.specs.Prelude.{◌≡◌, ◌==◌, ◌||◌, ℕ, false, IfOk};
ghost use Rattle.std.specs.FinMap as finmap;
ghost use Rattle.std.specs.List.{list_any};
ghost use Rattle.std.specs.Option.{option_map_or};
ghost use Rattle.wot_types.specs.Keyring.{id_of, is_fpr_of};
ghost use Rattle.wot_types.specs.NextCheck.{key_expiries};
ghost use Rattle.wot_types.specs.Touched.{is_passed_between};
ghost use Rattle.wot_types.specs.declared.key.Key.{Key};
ghost use Rattle.wot_live.specs.PlainEdit.{is_back};
ghost use Rattle.wot_live.specs.Recounting.{among};

use crate::worklist::Worklist;
use wot_table::Table;
use wot_types::{Entries, Entry, Fpr, KeyId, Keys, Mem, Rows};

/// The keys with an expiry on them that one of the two dates has passed and the other hasn't.
pub fn named_by_date(list: Worklist, table: &Table, from: u32, to: u32) -> Result<Worklist, Mem>
    ensures { IfOk result (λ new. (x : ℕ) → among new x ≡ (among list x || option_map_or (λ key. list_any (is_passed_between from to) (key_expiries key)) (finmap.get table.now x) false)) }
{
    let ids = table.expiring(from.min(to), from.max(to))?;
    list.add_all(&ids)
}

fn add_keys(list: Worklist, keys: &Keys) -> Result<Worklist, Mem>
    ensures { IfOk result (λ new. (x : ℕ) → among new x ≡ (among list x || list_any (λ key. id_of key == x) keys.now)) }
{
    let mut list = list;
    for key in keys.as_slice() {
        list = list.add(key.fpr.key_id())?;
    }
    Ok(list)
}

/// The key of an entry's fingerprint, if it is there.
fn add_entry(list: Worklist, table: &Table, entry: &Entry) -> Result<Worklist, Mem>
    ensures { IfOk result (λ new. (x : ℕ) → among new x ≡ (among list x || is_fpr_of entry.now.fpr (finmap.get table.now x))) }
{
    let _ = table.totals(); // each key stands under its own key ID
    if table.has_fpr(&entry.fpr) {
        return list.add(entry.fpr.key_id());
    }
    Ok(list)
}

fn add_entries(list: Worklist, table: &Table, entries: &Entries) -> Result<Worklist, Mem>
    ensures { IfOk result (λ new. (x : ℕ) → among new x ≡ (among list x || list_any (λ entry. is_fpr_of entry.fpr (finmap.get table.now x)) entries.now)) }
{
    let mut list = list;
    for entry in entries.as_slice() {
        list = add_entry(list, table, entry)?;
    }
    Ok(list)
}

/// Whether a key ID had one of these rows and has no key now.
fn is_back(table: &Table, kept: &Rows, id: KeyId) -> bool
    ensures { (key : Key) → id_of key ≡ id → result ≡ is_back table.now kept.now key }
{
    table.fpr(id).is_none() && kept.get(id).is_some()
}

/// Whether one of these keys comes to a key ID that had one of these rows and has no key now.
pub fn has_back(table: &Table, kept: &Rows, keys: &Keys) -> bool
    ensures { result ≡ list_any (is_back table.now kept.now) keys.now }
{
    keys.as_slice()
        .iter()
        .any(|key| is_back(table, kept, key.fpr.key_id()))
}

/// The keys that are put, and the keys of the entries' fingerprints.
pub fn named_by_put(
    list: Worklist,
    table: &Table,
    keys: &Keys,
    entries: &Entries,
) -> Result<Worklist, Mem>
    ensures { IfOk result (λ new. (x : ℕ) → among new x ≡ (among list x || (list_any (λ key. id_of key == x) keys.now || list_any (λ entry. is_fpr_of entry.fpr (finmap.get table.now x)) entries.now))) }
{
    let list = add_keys(list, keys)?;
    add_entries(list, table, entries)
}
