//! All rows counted anew, over several threads.

ghost use Rattle.std.specs.Prelude.{◌≡◌, ◌≤◌, ◌<◌, ◌/◌, ◌++◌, ℕ, List, IfOk, OnOk, None, length, option_to_list};
ghost use Rattle.std.specs.FinMap as map;
ghost use Rattle.std.specs.Option.{option_or};
ghost use Rattle.wot_types.specs.declared.row.Row.{Row};
ghost use Rattle.wot_types.specs.Levels.{kept_or, rows_of};
ghost use Rattle.wot_types.specs.Payload.{IsInRange};
ghost use Rattle.wot_levels.specs.Given.{given_row};
ghost use Rattle.wot_workers.specs.Pieces.{IsPieceSize};
ghost use Rattle.wot_check.specs.KeyWalk.{IsWalk};
ghost use Rattle.wot_check.specs.Recount.{IsFoundByPiece, IsSpread, fresh_row, fresh_rows, row_among};

use std::alloc::{AllocError, Global};
use std::marker::Brand;
use std::sync::ledger::{Blank, Ledger};
use std::thread::{Threads, map_chunks};
use wot_levels::{Asked, given_row};
use wot_table::LentState;
use wot_types::{KeyId, List, Mem, Row, Rows, Steps};
use wot_workers::{Gate, Workers, piece_number, piece_size};

/// What a level gives a key that has no row yet.
fn fresh_row<L: Ledger>(
    state: &LentState<'_>,
    rows: &Rows,
    id: KeyId,
    level: u8,
    steps: &mut Steps<L>,
    asked: &mut Asked,
) -> Result<Option<Row>, Mem>
    ensures { IfOk result (λ row. row ≡ fresh_row state.now rows.now level id) }
{
    match rows.get(id) {
        Some(_) => Ok(None),
        None => given_row(state, rows, id, level, steps, asked),
    }
}

fn push_found(found: &mut List<Row>, row: Option<Row>) -> Result<(), Mem>
    ensures { OnOk result (found.new ≡ found.old ++ option_to_list row) }
{
    match row {
        Some(row) => found.push(row),
        None => Ok(()),
    }
}

/// The rows that a level gives some keys.
fn fresh_rows<L: Ledger>(
    state: &LentState<'_>,
    rows: &Rows,
    ids: &[KeyId],
    level: u8,
    steps: &mut Steps<L>,
    asked: &mut Asked,
) -> Result<List<Row>, Mem>
    ensures { IfOk result (λ found. found ≡ fresh_rows state.now rows.now level ids.now) }
{
    let mut found = List::new(state.table().alloc());
    for id in ids {
        let row = fresh_row(state, rows, *id, level, steps, asked)?;
        push_found(&mut found, row)?;
    }
    Ok(found)
}

/// The same, by a counter of its own.
fn fresh_rows_by<L: Ledger>(
    state: &LentState<'_>,
    rows: &Rows,
    ids: &[KeyId],
    level: u8,
    blank: Blank,
) -> Result<List<Row>, Mem>
    requires own { (blank.name ≡ L.name) × (blank.parts ≡ L.parts) × (0 < L.parts) }
    ensures { IfOk result (λ found. found ≡ fresh_rows state.now rows.now level ids.now) }
{
    let mut steps = Steps::<L>::open(blank);
    let mut asked = Asked::new(state.table().alloc());
    fresh_rows(state, rows, ids, level, &mut steps, &mut asked)
}

/// What a worker finds for its piece.
fn count_piece<G: Gate>(
    state: &LentState<'_>,
    rows: &Rows,
    ids: &[KeyId],
    level: u8,
    piece: u32,
    gate: &G,
) -> Result<List<Row>, Mem>
    ensures { IfOk result (λ found. found ≡ fresh_rows state.now rows.now level ids.now) }
{
    gate.enter(piece);
    fresh_rows_by::<Brand>(state, rows, ids, level, Blank::new(1))
}

/// What the workers find, piece by piece.
fn count_pieces<R: Threads + Sync, G: Gate + Sync>(
    workers: &Workers<'_, R, G>,
    state: &LentState<'_>,
    rows: &Rows,
    ids: &[KeyId],
    level: u8,
    size: usize,
) -> Result<Vec<Result<List<Row>, Mem>>, AllocError>
    requires size { IsPieceSize workers.now.count (length ids.now) size }
    ensures { IfOk result (λ found. IsFoundByPiece (fresh_rows state.now rows.now level) size ids.now found.items) }
{
    let gate = workers.gate;
    map_chunks(
        workers.rt,
        state.table().alloc(),
        ids,
        size,
        &|start: usize, piece: &[KeyId]| -> Result<List<Row>, Mem>
            requires { (1 ≤ size) × (start / size < 64) }
            ensures { IfOk result (λ found. found ≡ fresh_rows state.entry.now rows.entry.now level piece.entry.now) }
        { count_piece(state, rows, piece, level, piece_number(start, size), gate) },
    )
}

/// The rows, and those of a piece. The last is put first, so that of two of one key the first would stand.
fn with_found(rows: Rows, found: List<Row>) -> Result<Rows, Mem>
    ensures { IfOk result (λ new. (id : ℕ) → map.get new id ≡ option_or (row_among found id) (map.get rows id)) }
{
    let mut rows = rows;
    let mut left = found;
    while let Some(row) = left.pop() {
        rows = rows.insert(row)?;
    }
    Ok(rows)
}

/// The rows, and those of all pieces.
fn with_pieces(rows: Rows, pieces: Vec<Result<List<Row>, Mem>>) -> Result<Rows, Mem>
    ensures { (make : List ℕ → List Row) (size : ℕ) (ids : List ℕ) → IsFoundByPiece make size ids pieces.items → IsSpread make → 0 < size → IfOk result (λ new. (id : ℕ) → map.get new id ≡ option_or (row_among (make ids) id) (map.get rows id)) }
{
    let mut rows = rows;
    let mut left = pieces;
    while let Some(piece) = left.pop() {
        let found = piece?;
        rows = with_found(rows, found)?;
    }
    Ok(rows)
}

/// The rows, and those that a level gives, whose lower levels they are.
fn with_level<R: Threads + Sync, G: Gate + Sync>(
    workers: &Workers<'_, R, G>,
    state: &LentState<'_>,
    rows: Rows,
    ids: &[KeyId],
    level: u8,
    size: usize,
) -> Result<Rows, Mem>
    requires size { IsPieceSize workers.now.count (length ids.now) size }
    requires walk { IsWalk (λ id. map.contains_key state.now.keys id) None ids.now }
    ensures { IfOk result (λ next. (id : ℕ) → map.get next id ≡ kept_or (map.get rows id) (given_row state.now rows level id)) }
{
    let pieces = count_pieces(workers, state, &rows, ids, level, size)?;
    with_pieces(rows, pieces)
}

/// The rows of all levels, as one thread counts them.
pub fn rows_by<R: Threads + Sync, G: Gate + Sync>(
    workers: &Workers<'_, R, G>,
    alloc: Global,
    state: &LentState<'_>,
) -> Result<Rows, Mem>
    requires ranges { IsInRange state.now.options }
    ensures { IfOk result (λ rows. rows ≡ rows_of state.now) }
{
    let ids = state.table().ids()?;
    let size = piece_size(ids.len(), workers.count);
    let none = Rows::new(alloc)?;
    let mut rows = with_level(workers, state, none, &ids, 0, size)?;
    for level in 1..state.options().depth {
        let before = rows.len();
        rows = with_level(workers, state, rows, &ids, level, size)?;
        // A level that adds no key is the last: no later one would add any.
        if rows.len() == before {
            return Ok(rows);
        }
    }
    Ok(rows)
}
