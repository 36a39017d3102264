//! The counts of one key's user IDs.

ghost use Rattle.std.specs.Prelude.{◌≡◌, ◌≤◌, ◌+◌, ◌∷◌, [], IfOk, None, Some};
ghost use Rattle.std.specs.FinMap as map;
ghost use Rattle.wot_types.specs.declared.key.Key.{Key};
ghost use Rattle.wot_types.specs.Keyring.{certs_at, key_certs};
ghost use Rattle.wot_live.specs.Counts.{AreCountedAt, key_counts};

use crate::counts::Counts;
use crate::key_counts::KeyCounts;
use std::sync::ledger::Ledger;
use wot_levels::{Asked, verdict_in};
use wot_table::{Keyblock, LentState};
use wot_types::{KeyId, Mem, Rows, Steps};

/// The candidates for each user ID of a key.
pub fn counts_in<L: Ledger>(
    keyblock: &Keyblock<'_>,
    state: &LentState<'_>,
    rows: &Rows,
    steps: &mut Steps<L>,
    asked: &mut Asked,
) -> Result<KeyCounts, Mem>
    ensures counts { IfOk result (λ counts. counts ≡ key_counts state.now rows.now keyblock.now.1) }
    ensures ticks { steps.new ≤ steps.old + key_certs keyblock.now.1 }
{
    let alloc = state.table().alloc();
    let users = keyblock.key().users;
    let mut counts = KeyCounts::new(alloc);
    for user in 0..users {
        counts = counts.push(alloc, verdict_in(keyblock, state, rows, user, steps, asked))?;
    }
    Ok(counts)
}

/// The same of a key that may be there.
pub fn counts_at<L: Ledger>(
    state: &LentState<'_>,
    rows: &Rows,
    id: KeyId,
    steps: &mut Steps<L>,
    asked: &mut Asked,
) -> Result<KeyCounts, Mem>
    ensures counts { (key : Key) → map.get state.now.keys id ≡ Some key → IfOk result (λ counts. counts ≡ key_counts state.now rows.now key) }
    ensures none { map.get state.now.keys id ≡ None → IfOk result (λ counts. counts ≡ []) }
    ensures ticks { steps.new ≤ steps.old + certs_at state.now.keys id }
{
    let table = state.table();
    match table.keyblock(id) {
        Some(keyblock) => counts_in(&keyblock, state, rows, steps, asked),
        None => Ok(KeyCounts::new(table.alloc())),
    }
}

/// The counts of a key in place of those that it had.
pub fn recount_key<L: Ledger>(
    state: &LentState<'_>,
    rows: &Rows,
    counts: Counts,
    id: KeyId,
    steps: &mut Steps<L>,
    asked: &mut Asked,
) -> Result<Counts, Mem>
    ensures counts { IfOk result (AreCountedAt state.now rows.now (id ∷ []) counts) }
    ensures ticks { steps.new ≤ steps.old + certs_at state.now.keys id }
{
    let mut counts = counts;
    let list = counts_at(state, rows, id, steps, asked)?;
    counts.set(id, list)?;
    Ok(counts)
}
