//! The check of all stored rows, over several threads.

ghost use Rattle.std.specs.Prelude.{◌≡◌, ◌≤◌, ◌<◌, ◌+◌, ◌*◌, ◌/◌, ◌↔◌, ℕ, List, IfOk, None, length};
ghost use Rattle.wot_types.specs.Levels.{rows_of};
ghost use Rattle.wot_types.specs.Payload.{IsInRange};
ghost use Rattle.wot_levels.specs.Frontier.{weight};
ghost use Rattle.wot_workers.specs.Pieces.{IsByPiece, IsPieceSize};
ghost use Rattle.wot_check.specs.Comparison.{first_fallen};
ghost use Rattle.wot_check.specs.FirstFault.{first_fault};
ghost use Rattle.wot_check.specs.KeyWalk.{IsWalk, is_checked};
ghost use Rattle.wot_check.specs.Stored.{IsFaultAt, IsFirstFault};

use crate::fault::RowFault;
use crate::given_row::fault_at;
use crate::keys::checked_keys;
use crate::stands::row_stands;
use std::alloc::{AllocError, Global};
use std::marker::Brand;
use std::sync::ledger::{Blank, Ledger};
use std::thread::{Threads, map_chunks};
use wot_levels::Asked;
use wot_table::LentState;
use wot_types::{KeyId, Mem, Rows, Steps};
use wot_workers::{Gate, Workers, first_some, piece_number, piece_size};

/// The first of these keys whose row doesn't stand. The certifications on each are read twice at most.
fn first_fallen<L: Ledger>(
    state: &LentState<'_>,
    rows: &Rows,
    ids: &[KeyId],
    steps: &mut Steps<L>,
    asked: &mut Asked,
) -> Option<KeyId>
    ensures first { result ≡ first_fallen state.now rows.now ids.now }
    ensures ticks { steps.new ≤ steps.old + 2 * weight state.now.keys ids.now }
{
    for id in ids {
        if !row_stands(state, rows, *id, steps, asked) {
            return Some(*id);
        }
    }
    None
}

/// The same, by a counter of its own.
fn first_fallen_by<L: Ledger>(
    state: &LentState<'_>,
    rows: &Rows,
    ids: &[KeyId],
    blank: Blank,
) -> Option<KeyId>
    requires own { (blank.name ≡ L.name) × (blank.parts ≡ L.parts) × (0 < L.parts) }
    ensures { result ≡ first_fallen state.now rows.now ids.now }
{
    let mut steps = Steps::<L>::open(blank);
    let mut asked = Asked::new(state.table().alloc());
    first_fallen(state, rows, ids, &mut steps, &mut asked)
}

/// What a worker finds in its piece.
fn check_piece<G: Gate>(
    state: &LentState<'_>,
    rows: &Rows,
    ids: &[KeyId],
    piece: u32,
    gate: &G,
) -> Option<KeyId>
    ensures { result ≡ first_fallen state.now rows.now ids.now }
{
    gate.enter(piece);
    first_fallen_by::<Brand>(state, rows, ids, Blank::new(1))
}

/// What the workers find, piece by piece.
fn check_pieces<R: Threads + Sync, G: Gate + Sync>(
    workers: &Workers<'_, R, G>,
    alloc: Global,
    state: &LentState<'_>,
    rows: &Rows,
    ids: &[KeyId],
    size: usize,
) -> Result<Vec<Option<KeyId>>, AllocError>
    requires size { IsPieceSize workers.now.count (length ids.now) size }
    ensures { IfOk result (λ found. IsByPiece (first_fallen state.now rows.now) size ids.now found.items) }
{
    let gate = workers.gate;
    map_chunks(
        workers.rt,
        alloc,
        ids,
        size,
        &|start: usize, piece: &[KeyId]| -> Option<KeyId>
            requires { (1 ≤ size) × (start / size < 64) }
            ensures { result ≡ first_fallen state.entry.now rows.entry.now piece.entry.now }
        { check_piece(state, rows, piece, piece_number(start, size), gate) },
    )
}

/// The least key, of the keyring or of the rows, whose row isn't what the rows of the others give it; None where the rows are those of the state.
pub fn check_all<R: Threads + Sync, G: Gate + Sync>(
    workers: &Workers<'_, R, G>,
    alloc: Global,
    state: &LentState<'_>,
    rows: &Rows,
) -> Result<Option<RowFault>, Mem>
    requires ranges { IsInRange state.now.options }
    ensures fault { IfOk result (IsFirstFault state.now rows.now) }
    ensures first { IfOk result (λ fault. fault ≡ first_fault state.now rows.now) }
    ensures whole { IfOk result (λ fault. (fault ≡ None) ↔ (rows.now ≡ rows_of state.now)) }
{
    match find_fallen(workers, alloc, state, rows)? {
        Some(id) => Ok(Some(fault_of(state, rows, id)?)),
        None => Ok(None),
    }
}

/// The least key, of the keyring or of the rows, whose row doesn't stand.
fn find_fallen<R: Threads + Sync, G: Gate + Sync>(
    workers: &Workers<'_, R, G>,
    alloc: Global,
    state: &LentState<'_>,
    rows: &Rows,
) -> Result<Option<KeyId>, Mem>
    ensures { IfOk result (λ first. (ids : List ℕ) × IsWalk (is_checked state.now.keys rows.now) None ids × (first ≡ first_fallen state.now rows.now ids)) }
{
    let ids = checked_keys(alloc, state.table(), rows)?;
    let size = piece_size(ids.len(), workers.count);
    let found = check_pieces(workers, alloc, state, rows, &ids, size)?;
    Ok(first_some(&found))
}

/// Both rows of a key, by a counter of its own.
fn fault_of(state: &LentState<'_>, rows: &Rows, id: KeyId) -> Result<RowFault, Mem>
    ensures { IfOk result (IsFaultAt state.now rows.now id) }
{
    fault_by::<Brand>(state, rows, id, Blank::new(1))
}

fn fault_by<L: Ledger>(
    state: &LentState<'_>,
    rows: &Rows,
    id: KeyId,
    blank: Blank,
) -> Result<RowFault, Mem>
    requires own { (blank.name ≡ L.name) × (blank.parts ≡ L.parts) × (0 < L.parts) }
    ensures { IfOk result (IsFaultAt state.now rows.now id) }
{
    let mut steps = Steps::<L>::open(blank);
    let mut asked = Asked::new(state.table().alloc());
    fault_at(state, rows, id, &mut steps, &mut asked)
}
