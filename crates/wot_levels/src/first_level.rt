//! The rows of level 0: of the live keys of ultimate ownertrust.

ghost use Rattle.std.specs.Prelude.{◌≡◌, All, IfOk, None, if◌then◌else◌, nat_eq, option_and_then, option_map, ℕ};
ghost use Rattle.std.specs.Cmp.Lexicographic.{pointwise};
ghost use Rattle.std.specs.FinMap as map;
ghost use Rattle.wot_types.specs.Accepted.{IsFiled};
ghost use Rattle.wot_types.specs.Fingerprint.{key_id_of};
ghost use Rattle.wot_types.specs.Levels.{first_row, rows_upto};
ghost use Rattle.wot_types.specs.Ownertrust.{ownertrust_of};
ghost use Rattle.wot_levels.specs.Entries.{named_row};
ghost use Rattle.wot_levels.specs.Standings.{standing_row};
ghost use Rattle.wot_levels.specs.Walk.{with_found};

use crate::making::with_row_if;
use crate::standing::{Standing, first_standing};
use wot_table::{Keyblock, LentState};
use wot_types::{Fpr, Mem, Rows, Trust};

fn with_first_row(state: &LentState<'_>, rows: Rows, keyblock: &Keyblock<'_>) -> Result<Rows, Mem>
    ensures { IfOk result (λ new. new ≡ with_found rows keyblock.now.0 (first_row state.now keyblock.now.0 keyblock.now.1)) }
{
    let standing = first_standing(state, &keyblock.key());
    with_row_if(rows, keyblock.id(), 0, &standing)
}

fn rows_by_keys(state: &LentState<'_>) -> Result<Rows, Mem>
    ensures { IfOk result (λ rows. rows ≡ rows_upto state.now 0) }
{
    let mut rows = Rows::new(state.table().alloc())?;
    for keyblock in state.table().walk() {
        rows = with_first_row(state, rows, &keyblock)?;
    }
    Ok(rows)
}

/// The standing of a key that has this fingerprint: one with the same key ID and another fingerprint isn't meant.
fn standing_of_fpr<'a>(
    state: &LentState<'_>,
    keyblock: &Keyblock<'_>,
    fpr: &Fpr,
) -> Option<Standing<'a>>
    ensures { (id : ℕ) → option_map (standing_row id 0) result ≡ named_row state.now fpr.now id keyblock.now.1 }
{
    let key = keyblock.key();
    if *key.fpr == *fpr {
        first_standing(state, &key)
    } else {
        None
    }
}

/// The standing of the key that an ownertrust entry names.
fn standing_of_entry<'a>(state: &LentState<'_>, fpr: &Fpr, trust: Trust) -> Option<Standing<'a>>
    requires kept { (ownertrust_of state.now.trusts fpr.now).trust ≡ trust }
    ensures { (id : ℕ) → option_map (standing_row id 0) result ≡ option_and_then (named_row state.now fpr.now id) (map.get state.now.keys (key_id_of fpr.now)) }
{
    // Only an ultimate entry costs a look-up.
    if trust != Trust::Ultimate {
        return None;
    }
    match state.table().keyblock(fpr.key_id()) {
        Some(keyblock) => standing_of_fpr(state, &keyblock, fpr),
        None => None,
    }
}

fn rows_by_entries(state: &LentState<'_>) -> Result<Rows, Mem>
    requires filed { All IsFiled (map.entries state.now.keys) }
    ensures { IfOk result (λ rows. rows ≡ rows_upto state.now 0) }
{
    let mut rows = Rows::new(state.table().alloc())?;
    for (fpr, kept) in state.trusts().iter() {
        let standing = standing_of_entry(state, fpr, kept.trust);
        rows = with_row_if(rows, fpr.key_id(), 0, &standing)?;
    }
    Ok(rows)
}

/// The rows of level 0, by the keys or by the ownertrust entries, whichever are fewer.
pub fn first_rows(state: &LentState<'_>) -> Result<Rows, Mem>
    ensures { IfOk result (λ rows. rows ≡ rows_upto state.now 0) }
{
    if state.trusts().len() < state.table().totals().keys {
        rows_by_entries(state)
    } else {
        rows_by_keys(state)
    }
}
