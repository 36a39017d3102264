//! The rows of a base.

ghost use Rattle.std.specs.Prelude.{◌≡◌, ◌≤◌, IfOk, OnErr, IsErrOf, Err, Some};
ghost use Rattle.wot_types.specs.Candidates.{RowMap};
ghost use Rattle.wot_types.specs.Levels.{rows_of};
ghost use Rattle.wot_types.specs.Payload.{IsInRange};
ghost use Rattle.wot_check.specs.Stored.{IsLeastFault};
ghost use Rattle.wot_check.specs.declared.fault.RowFault.{RowFault};
ghost use Rattle.wot_image.specs.States.{image_state};
ghost use Rattle.wot_store.specs.Base.{AreRowsOf};

use crate::error::{BadStore, StoreError};
use std::alloc::Global;
use std::thread::Threads;
use wot_check::{check_all, rows_by};
use wot_image::Image;
use wot_live::{Engine, EngineDraft};
use wot_table::LentState;
use wot_types::{Mem, Rows};
use wot_workers::{Gate, Workers};

/// The draft of a base whose rows all stand. Where it has none that were counted by the rules of now, the workers count them.
pub fn take_rows<R: Threads + Sync, G: Gate + Sync>(
    workers: &Workers<'_, R, G>,
    alloc: Global,
    image: Image,
) -> Result<EngineDraft, StoreError>
    requires ranges { IsInRange image.options }
    ensures draft { IfOk result (λ draft. draft ≡ image_state image) }
    ensures stand { IfOk result (λ draft. AreRowsOf (image_state image) image.rows) }
    ensures bad { (b : _) → IsErrOf result (StoreError.Bad b) → (fault : RowFault) × (rows : RowMap) × (b ≡ BadStore.Row fault) × (image.rows ≡ Some rows) × IsLeastFault (image_state image) rows fault }
    ensures no_disk { IsErrOf result StoreError.DiskFault → ⊥ }
{
    let Image {
        table,
        trusts,
        date,
        options,
        rows,
    } = image;
    let state = LentState::of(&table, &trusts, date, &options);
    let rows = match standing_rows(workers, alloc, &state, rows) {
        Ok(rows) => rows,
        Err(e) => return Err(e),
    };
    match Engine::from_parts_by(workers, table, trusts, date, options, rows) {
        Ok(engine) => Ok(engine.into_draft()),
        Err(Mem::Memory) => Err(StoreError::Memory),
    }
}

// The rows of a state: those that are stored, where all stand, and counted ones where none are stored.
fn standing_rows<R: Threads + Sync, G: Gate + Sync>(
    workers: &Workers<'_, R, G>,
    alloc: Global,
    state: &LentState<'_>,
    stored: Option<Rows>,
) -> Result<Rows, StoreError>
    requires ranges { IsInRange state.now.options }
    ensures rows { IfOk result (λ rows. rows ≡ rows_of state.now) }
    ensures stand { IfOk result (λ rows. AreRowsOf state.now stored) }
    ensures bad { (b : _) → IsErrOf result (StoreError.Bad b) → (fault : RowFault) × (rows : RowMap) × (b ≡ BadStore.Row fault) × (stored ≡ Some rows) × IsLeastFault state.now rows fault }
    ensures no_disk { IsErrOf result StoreError.DiskFault → ⊥ }
{
    match stored {
        Some(rows) => checked_rows(workers, alloc, state, rows),
        None => counted_rows(workers, alloc, state),
    }
}

// Stored rows, where all stand.
fn checked_rows<R: Threads + Sync, G: Gate + Sync>(
    workers: &Workers<'_, R, G>,
    alloc: Global,
    state: &LentState<'_>,
    stored: Rows,
) -> Result<Rows, StoreError>
    requires ranges { IsInRange state.now.options }
    ensures same { IfOk result (λ rows. rows ≡ stored) }
    ensures stand { IfOk result (λ rows. stored ≡ rows_of state.now) }
    ensures bad { (b : _) → IsErrOf result (StoreError.Bad b) → (fault : RowFault) × (b ≡ BadStore.Row fault) × IsLeastFault state.now stored fault }
    ensures no_disk { IsErrOf result StoreError.DiskFault → ⊥ }
{
    let found = check_all(workers, alloc, state, &stored);
    match found {
        Ok(None) => Ok(stored),
        Ok(Some(fault)) => Err(StoreError::Bad(BadStore::Row(fault))),
        Err(Mem::Memory) => Err(StoreError::Memory),
    }
}

// The rows of a state, counted by the workers.
fn counted_rows<R: Threads + Sync, G: Gate + Sync>(
    workers: &Workers<'_, R, G>,
    alloc: Global,
    state: &LentState<'_>,
) -> Result<Rows, StoreError>
    requires ranges { IsInRange state.now.options }
    ensures rows { IfOk result (λ rows. rows ≡ rows_of state.now) }
    ensures only_memory { OnErr result (result ≡ Err StoreError.Memory) }
{
    match rows_by(workers, alloc, state) {
        Ok(rows) => Ok(rows),
        Err(Mem::Memory) => Err(StoreError::Memory),
    }
}
