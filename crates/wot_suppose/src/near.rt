//! The keys from which one comes to a key over certifications.

ghost use Rattle.std.specs.Prelude.{◌≡◌, ◌⊎◌, ◌==◌, ℕ, true, false, IfOk, length};
ghost use Rattle.std.specs.BTreeSet as tree;
ghost use Rattle.std.specs.List.{list_any};
ghost use Rattle.std.specs.Ordering.{nat_cmp};
ghost use Rattle.wot_types.specs.Indexes.{has_cert_by, key_issuers};
ghost use Rattle.wot_levels.specs.Certifiers.{has_issuer};
ghost use Rattle.wot_suppose.specs.Near.{IsWider, LeadsTo, is_found, is_unread};

use std::alloc::Global;
use std::collections::BTreeSet;
use std::sync::ledger::Ledger;
use wot_table::{Keyblock, Table};
use wot_types::{KeyId, Mem, PackedPlaced, Steps};

/// The keys that were found so far, and those of them whose certifications weren't read yet.
#[derive(Drop)]
struct Near {
    found: BTreeSet<KeyId>,
    unread: Vec<KeyId>,
}

/// A key more, which is unread where it wasn't found before.
fn with_key(near: Near, id: KeyId) -> Result<Near, Mem>
    ensures there { IfOk result (λ new. is_found new id ≡ true) }
    ensures wider { IfOk result (IsWider near) }
{
    let Near {
        mut found,
        mut unread,
    } = near;
    if !found.insert(id)? {
        return Ok(Near { found, unread });
    }
    unread.push(id)?;
    Ok(Near { found, unread })
}

/// The issuers of these certifications too.
fn with_issuers(near: Near, certs: &[PackedPlaced]) -> Result<Near, Mem>
    ensures there { IfOk result (λ new. (y : ℕ) → has_issuer certs.now y ≡ true → is_found new y ≡ true) }
    ensures wider { IfOk result (IsWider near) }
{
    let mut near = near;
    for placed in certs {
        near = with_key(near, placed.issuer())?;
    }
    Ok(near)
}

/// Those who certified a key of so many user IDs too.
fn with_certifiers<L: Ledger>(
    near: Near,
    keyblock: &Keyblock<'_>,
    users: u32,
    steps: &mut Steps<L>,
) -> Result<Near, Mem>
    requires users { users ≡ length keyblock.now.1.users }
    ensures there { IfOk result (λ new. (y : ℕ) → list_any (λ n. n == y) (key_issuers keyblock.now.1) ≡ true → is_found new y ≡ true) }
    ensures wider { IfOk result (IsWider near) }
{
    let mut near = near;
    for user in 0..users {
        near = with_issuers(near, keyblock.certs(user, steps))?;
    }
    Ok(near)
}

/// Those who certified a key of the table too.
fn with_certifiers_of<L: Ledger>(
    near: Near,
    table: &Table,
    id: KeyId,
    steps: &mut Steps<L>,
) -> Result<Near, Mem>
    ensures there { IfOk result (λ new. (y : ℕ) → has_cert_by table.now y id ≡ true → is_found new y ≡ true) }
    ensures wider { IfOk result (IsWider near) }
{
    match table.keyblock(id) {
        None => Ok(near),
        Some(keyblock) => with_certifiers(near, &keyblock, keyblock.key().users, steps),
    }
}

/// Those who certified the unread keys too. Of these none is read again.
fn one_more_step<L: Ledger>(near: Near, table: &Table, steps: &mut Steps<L>) -> Result<Near, Mem>
    ensures read { IfOk result (λ new. (x y : ℕ) → is_unread near x ≡ true → has_cert_by table.now y x ≡ true → is_found new y ≡ true) }
    ensures kept { IfOk result (λ new. (y : ℕ) → is_found near y ≡ true → is_found new y ≡ true) }
    ensures listed { IfOk result (λ new. (y : ℕ) → is_found new y ≡ true → (is_found near y ≡ true) ⊎ (is_unread new y ≡ true)) }
{
    let Near { found, unread: ids } = near;
    let mut near = Near {
        found,
        unread: Vec::new(table.alloc()),
    };
    for id in ids.as_slice() {
        near = with_certifiers_of(near, table, *id, steps)?;
    }
    Ok(near)
}

/// The keys from which one comes to a key over so many certifications at most, by a search in breadth that reads each key once.
pub fn near_keys<L: Ledger>(
    table: &Table,
    id: KeyId,
    most: u8,
    steps: &mut Steps<L>,
) -> Result<BTreeSet<KeyId>, Mem>
    ensures { IfOk result (λ keys. (y : ℕ) → LeadsTo table.now most id y → tree.contains nat_cmp keys y ≡ true) }
{
    let mut near = with_key(nothing(table.alloc()), id)?;
    for _ in 0..most {
        near = one_more_step(near, table, steps)?;
    }
    Ok(near.found)
}

fn nothing(alloc: Global) -> Near
    ensures { (y : ℕ) → is_found result y ≡ false }
{
    Near {
        found: BTreeSet::new(alloc),
        unread: Vec::new(alloc),
    }
}
