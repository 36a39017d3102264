//! The entries on which a letter hangs.

ghost use Rattle.std.specs.Prelude.{◌≡◌, ◌&&◌, ℕ, IfOk};
ghost use Rattle.std.specs.BTreeSet as tree;
ghost use Rattle.std.specs.FinMap as map;
ghost use Rattle.std.specs.List.{filter_map};
ghost use Rattle.std.specs.Ordering.{nat_cmp};
ghost use Rattle.wot_types.specs.Supposing.{critical, if_worse, loss_by};
ghost use Rattle.wot_suppose.specs.Introducing.{if_introducing};

use crate::near::near_keys;
use crate::tried::Tried;
use std::alloc::Global;
use std::collections::BTreeSet;
use std::sync::ledger::Ledger;
use wot_live::{Engine, letter_rank};
use wot_types::{Fpr, KeyId, Letter, Loss, Losses, Mem, Rows, Steps, Trust, Trusts};

/// The entries without whose ownertrust the letter of a user ID, numbered from 0, is further back, each with that letter. Each entry is tried
/// on its own, but for those without which the letter is sure to stay. The engine that is handed back has the same state; it is gone after
/// want of memory.
pub fn critical<L: Ledger>(
    engine: Engine,
    id: KeyId,
    user: u32,
    steps: &mut Steps<L>,
) -> Result<(Engine, Losses), Mem>
    ensures state { IfOk result (λ r. r.0 ≡ engine) }
    ensures losses { IfOk result (λ r. r.1 ≡ critical engine id user) }
{
    let alloc = engine.table().alloc();
    let letter = engine.letter(id, user);
    let mut left = tried_fprs(&engine, id, steps)?;
    left.reverse();
    let mut tried = Tried::nothing(engine);
    let mut losses = Losses::new(alloc);
    while let Some(fpr) = left.pop() {
        tried = tried.without(&fpr, steps)?;
        if let Some(letter) = if_worse(letter, tried.engine.letter(id, user)) {
            losses.push(Loss { fpr, letter })?;
        }
    }
    Ok((tried.taken_back(steps)?, losses))
}

/// The fingerprints of the entries that are tried on a key's letters, in rising order. Without the ownertrust of a key that has no row no letter
/// changes: whether a key gets a row hangs on its certifications, and its ownertrust tells only what the row is worth. Nor does a letter of
/// this key change without the ownertrust of a key from which one doesn't come to it over `max-cert-depth` certifications: a letter hangs on
/// the rows of its certifiers, a row on the certifiers' rows of lower levels, and there are as many levels.
fn tried_fprs<L: Ledger>(engine: &Engine, id: KeyId, steps: &mut Steps<L>) -> Result<Vec<Fpr>, Mem>
    ensures { IfOk result (λ fprs. (user : ℕ) → filter_map (loss_by engine.now id user) fprs.items ≡ critical engine.now id user) }
{
    let table = engine.table();
    let _ = table.totals(); // each key stands under its own key ID
    let near = near_keys(table, id, engine.options().depth, steps)?;
    introducing_fprs(table.alloc(), engine.trusts(), engine.rows(), &near)
}

/// The fingerprints of the entries whose ownertrust is known, and whose key ID has a row and is one of these keys, in rising order.
fn introducing_fprs(
    alloc: Global,
    trusts: &Trusts,
    rows: &Rows,
    near: &BTreeSet<KeyId>,
) -> Result<Vec<Fpr>, Mem>
    ensures { IfOk result (λ fprs. fprs.items ≡ filter_map (if_introducing rows.now (tree.contains nat_cmp near.now)) (map.entries trusts.now)) }
{
    let mut fprs = Vec::new(alloc);
    for (fpr, kept) in trusts.iter() {
        if kept.trust != Trust::Unknown && is_introducing(rows, near, fpr.key_id()) {
            fprs.push(fpr.clone()?)?;
        }
    }
    Ok(fprs)
}

/// Whether a key ID has a row and is one of these keys.
fn is_introducing(rows: &Rows, near: &BTreeSet<KeyId>, id: KeyId) -> bool
    ensures { result ≡ (map.contains_key rows.now id && tree.contains nat_cmp near.now id) }
{
    rows.get(id).is_some() && near.contains(&id)
}

/// The new letter, where it is further back than the old one.
fn if_worse(old: Option<Letter>, new: Option<Letter>) -> Option<Letter>
    ensures { result ≡ if_worse old new }
{
    match (old, new) {
        (Some(old), Some(new)) if letter_rank(new) < letter_rank(old) => Some(new),
        _ => None,
    }
}
