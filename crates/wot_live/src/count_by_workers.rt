//! The counts of all keys, from nothing, by several threads.

ghost use Rattle.std.specs.Prelude.{◌≡◌, ◌<◌, ◌++◌, ℕ, All, IfOk, IsOk, OnOk, length};
ghost use Rattle.std.specs.List.{flat_map};
ghost use Rattle.wot_types.specs.State.{State};
ghost use Rattle.wot_live.specs.Counts.{counts_over, counts_rule};
ghost use Rattle.wot_live.specs.FoundCounts.{IsCountedByPiece, found_pairs, kept_pair, kept_pairs};
ghost use Rattle.wot_workers.specs.Pieces.{IsPieceSize};

use crate::count_key::counts_at;
use crate::counts::{Counts, kept_counts};
use crate::key_counts::KeyCounts;
use std::alloc::{AllocError, Global};
use std::marker::Brand;
use std::sync::ledger::{Blank, Ledger};
use std::thread::{Threads, map_chunks};
use wot_levels::Asked;
use wot_table::LentState;
use wot_types::{KeyId, Mem, Rows, Steps};
use wot_workers::{Gate, Workers, piece_size};

/// Adds the counts of a key, if it has a candidate.
fn push_counts_of_id<L: Ledger>(
    state: &LentState<'_>,
    rows: &Rows,
    id: KeyId,
    to: &mut Vec<(KeyId, KeyCounts)>,
    steps: &mut Steps<L>,
    asked: &mut Asked,
) -> Result<(), Mem>
    ensures { OnOk result (to.new.items ≡ to.old.items ++ kept_pair id (counts_rule state.now rows.now id)) }
{
    let counts = counts_at(state, rows, id, steps, asked)?;
    if let Some(counts) = kept_counts(counts) {
        to.push((id, counts))?;
    }
    Ok(())
}

/// The counts of those of these keys that have a candidate.
fn pairs_of<L: Ledger>(
    state: &LentState<'_>,
    rows: &Rows,
    ids: &[KeyId],
    steps: &mut Steps<L>,
    asked: &mut Asked,
) -> Result<Vec<(KeyId, KeyCounts)>, Mem>
    ensures { IfOk result (λ pairs. pairs.items ≡ kept_pairs state.now rows.now ids.now) }
{
    let mut pairs = Vec::new(state.table().alloc());
    for id in ids {
        push_counts_of_id(state, rows, *id, &mut pairs, steps, asked)?;
    }
    Ok(pairs)
}

/// The counts of a piece of the keys, over a counter of its own.
fn count_keys<L: Ledger>(
    state: &LentState<'_>,
    rows: &Rows,
    ids: &[KeyId],
    blank: Blank,
) -> Result<Vec<(KeyId, KeyCounts)>, Mem>
    requires own { (blank.name ≡ L.name) × (blank.parts ≡ L.parts) × (0 < L.parts) }
    ensures { IfOk result (λ pairs. pairs.items ≡ kept_pairs state.now rows.now ids.now) }
{
    let mut steps = Steps::<L>::open(blank);
    let mut asked = Asked::new(state.table().alloc());
    pairs_of(state, rows, ids, &mut steps, &mut asked)
}

/// What a worker counts.
fn count_piece(
    state: &LentState<'_>,
    rows: &Rows,
    ids: &[KeyId],
) -> Result<Vec<(KeyId, KeyCounts)>, Mem>
    ensures { IfOk result (λ pairs. pairs.items ≡ kept_pairs state.now rows.now ids.now) }
{
    count_keys::<Brand>(state, rows, ids, Blank::new(1))
}

/// What the workers count, piece by piece. They call no gate.
fn count_pieces<R: Threads + Sync, G: Gate + Sync>(
    workers: &Workers<'_, R, G>,
    state: &LentState<'_>,
    rows: &Rows,
    ids: &[KeyId],
    size: usize,
) -> Result<Vec<Result<Vec<(KeyId, KeyCounts)>, Mem>>, AllocError>
    requires size { IsPieceSize workers.now.count (length ids.now) size }
    ensures { IfOk result (λ found. IsCountedByPiece state.now rows.now size ids.now found.items) }
{
    map_chunks(
        workers.rt,
        state.table().alloc(),
        ids,
        size,
        &|_start: usize, piece: &[KeyId]| -> Result<Vec<(KeyId, KeyCounts)>, Mem>
            ensures { IfOk result (λ pairs. pairs.items ≡ kept_pairs state.entry.now rows.entry.now piece.entry.now) }
        { count_piece(state, rows, piece) },
    )
}

/// The counts of all pieces together.
fn merged(
    alloc: Global,
    pieces: Vec<Result<Vec<(KeyId, KeyCounts)>, Mem>>,
) -> Result<Vec<(KeyId, KeyCounts)>, Mem>
    ensures whole { IfOk result (λ _. All IsOk pieces.items) }
    ensures exact { IfOk result (λ pairs. pairs.items ≡ flat_map found_pairs pieces.items) }
{
    let mut pairs = Vec::new(alloc);
    for piece in pieces {
        pairs.append(&mut piece?)?;
    }
    Ok(pairs)
}

/// The counts of those of these keys that have a candidate, by these workers.
fn pairs_by<R: Threads + Sync, G: Gate + Sync>(
    workers: &Workers<'_, R, G>,
    state: &LentState<'_>,
    rows: &Rows,
    ids: &[KeyId],
) -> Result<Vec<(KeyId, KeyCounts)>, Mem>
    ensures { IfOk result (λ pairs. pairs.items ≡ kept_pairs state.now rows.now ids.now) }
{
    let size = piece_size(ids.len(), workers.count);
    let found = count_pieces(workers, state, rows, ids, size)?;
    merged(state.table().alloc(), found)
}

/// The counts of all keys, made by these workers by counters of their own. They call no gate.
pub fn counts_by<R: Threads + Sync, G: Gate + Sync>(
    workers: &Workers<'_, R, G>,
    state: &LentState<'_>,
    rows: &Rows,
) -> Result<Counts, Mem>
    ensures { IfOk result (λ counts. counts ≡ counts_over state.now rows.now) }
{
    let table = state.table();
    let ids = table.ids()?;
    Counts::of(table.alloc(), pairs_by(workers, state, rows, &ids)?)
}
