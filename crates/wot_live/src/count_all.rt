//! The counts of all keys, from nothing.

ghost use Rattle.std.specs.Prelude.{◌≡◌, ◌≤◌, ◌+◌, IfOk, OnOk};
ghost use Rattle.wot_types.specs.Keyring.{cert_total, key_certs};
ghost use Rattle.wot_live.specs.Counts.{counts_over, kept_counts, key_counts, with_counts};

use crate::count_key::{counts_in, recount_key};
use crate::counts::Counts;
use std::sync::ledger::Ledger;
use wot_levels::{Asked, certified};
use wot_table::{Keyblock, LentState};
use wot_types::{Mem, Rows, Steps};

/// Key by key in rising order, without look-ups.
pub fn counts_by_walk<L: Ledger>(
    state: &LentState<'_>,
    rows: &Rows,
    steps: &mut Steps<L>,
    asked: &mut Asked,
) -> Result<Counts, Mem>
    ensures counts { IfOk result (λ counts. counts ≡ counts_over state.now rows.now) }
    ensures ticks { steps.new ≤ steps.old + cert_total state.now.keys }
{
    let table = state.table();
    let mut counts = Counts::new(table.alloc());
    for keyblock in table.walk() {
        count_keyblock(state, rows, &mut counts, &keyblock, steps, asked)?;
    }
    Ok(counts)
}

/// Keeps the counts of a key in place of those it had.
fn count_keyblock<L: Ledger>(
    state: &LentState<'_>,
    rows: &Rows,
    counts: &mut Counts,
    keyblock: &Keyblock<'_>,
    steps: &mut Steps<L>,
    asked: &mut Asked,
) -> Result<(), Mem>
    ensures counts { OnOk result (counts.new ≡ with_counts counts.old keyblock.now.0 (kept_counts (key_counts state.now rows.now keyblock.now.1))) }
    ensures ticks { steps.new ≤ steps.old + key_certs keyblock.now.1 }
{
    let list = counts_in(keyblock, state, rows, steps, asked)?;
    counts.set(keyblock.id(), list)
}

/// Those of the keys that introducers certified: no other key has a candidate.
fn counts_by_introducers<L: Ledger>(
    state: &LentState<'_>,
    rows: &Rows,
    steps: &mut Steps<L>,
    asked: &mut Asked,
) -> Result<Counts, Mem>
    ensures counts { IfOk result (λ counts. counts ≡ counts_over state.now rows.now) }
    ensures ticks { steps.new ≤ steps.old + cert_total state.now.keys }
{
    let table = state.table();
    let ids = certified(table, rows)?;
    let mut counts = Counts::new(table.alloc());
    for id in ids.as_slice() {
        counts = recount_key(state, rows, counts, *id, steps, asked)?;
    }
    Ok(counts)
}

/// The counts of all keys, by the introducers where these are few.
pub fn all_counts<L: Ledger>(
    state: &LentState<'_>,
    rows: &Rows,
    steps: &mut Steps<L>,
    asked: &mut Asked,
) -> Result<Counts, Mem>
    ensures counts { IfOk result (λ counts. counts ≡ counts_over state.now rows.now) }
    ensures ticks { steps.new ≤ steps.old + cert_total state.now.keys }
{
    if (rows.len() as u64) < state.table().totals().keys / 8 {
        counts_by_introducers(state, rows, steps, asked)
    } else {
        counts_by_walk(state, rows, steps, asked)
    }
}
