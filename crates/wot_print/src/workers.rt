//! How many user IDs have which letter, counted by several threads.

ghost use Rattle.std.specs.Prelude.{◌≡◌, ◌<◌, ◌++◌, ℕ, IfOk, List, length};
ghost use Rattle.std.specs.List.{flat_map};
ghost use Rattle.wot_types.specs.declared.letter.Letter.{Letter};
ghost use Rattle.wot_types.specs.Tally.{all_letters, tally_line};
ghost use Rattle.wot_workers.specs.Pieces.{IsByPiece, IsPieceSize};
ghost use Rattle.wot_print.specs.Counts.{counts_of};
ghost use Rattle.wot_print.specs.KeyLetters.{letters_among, letters_at};

use crate::counts::{LetterCounts, count_users, counts_line};
use std::alloc::{AllocError, Global};
use std::marker::Brand;
use std::sync::ledger::{Blank, Ledger};
use std::thread::{Threads, map_chunks};
use wot_levels::Asked;
use wot_table::LentState;
use wot_types::{KeyId, Mem, Rows, Steps};
use wot_workers::{Gate, Workers, piece_size};

/// The letters of a key's user IDs.
fn count_key<L: Ledger>(
    counts: &mut LetterCounts,
    state: &LentState<'_>,
    rows: &Rows,
    id: KeyId,
    steps: &mut Steps<L>,
    asked: &mut Asked,
)
    ensures { (letters : List Letter) → counts.old ≡ counts_of letters → counts.new ≡ counts_of (letters ++ letters_at state.now rows.now id) }
{
    match state.table().keyblock(id) {
        Some(keyblock) => count_users(counts, state, rows, &keyblock, steps, asked),
        None => (),
    }
}

/// The letters of the user IDs of a piece, over a counter of its own.
fn count_keys<L: Ledger>(
    state: &LentState<'_>,
    rows: &Rows,
    ids: &[KeyId],
    blank: Blank,
) -> LetterCounts
    requires own { (blank.name ≡ L.name) × (blank.parts ≡ L.parts) × (0 < L.parts) }
    ensures { result ≡ counts_of (letters_among state.now rows.now ids.now) }
{
    let mut steps = Steps::<L>::open(blank);
    let mut asked = Asked::new(state.table().alloc());
    let mut counts = LetterCounts::new();
    for id in ids {
        count_key(&mut counts, state, rows, *id, &mut steps, &mut asked);
    }
    counts
}

/// What a worker counts.
fn count_piece(state: &LentState<'_>, rows: &Rows, ids: &[KeyId]) -> LetterCounts
    ensures { result ≡ counts_of (letters_among state.now rows.now ids.now) }
{
    count_keys::<Brand>(state, rows, ids, Blank::new(1))
}

/// What the workers count, piece by piece. They call no gate.
fn count_pieces<R: Threads + Sync, G: Gate + Sync>(
    workers: &Workers<'_, R, G>,
    alloc: Global,
    state: &LentState<'_>,
    rows: &Rows,
    ids: &[KeyId],
    size: usize,
) -> Result<Vec<LetterCounts>, AllocError>
    requires size { IsPieceSize workers.now.count (length ids.now) size }
    ensures { IfOk result (λ found. IsByPiece (λ piece. counts_of (letters_among state.now rows.now piece)) size ids.now found.items) }
{
    map_chunks(
        workers.rt,
        alloc,
        ids,
        size,
        &|_start: usize, piece: &[KeyId]| -> LetterCounts
            ensures { result ≡ counts_of (letters_among state.entry.now rows.entry.now piece.entry.now) }
        { count_piece(state, rows, piece) },
    )
}

/// The counts of all pieces together.
fn count_of_pieces(found: &[LetterCounts]) -> LetterCounts
    ensures { (letters : ℕ → List Letter) (size : ℕ) (ids : List ℕ) → IsByPiece (λ piece. counts_of (flat_map letters piece)) size ids found.now → 0 < size → result ≡ counts_of (flat_map letters ids) }
{
    let mut all = LetterCounts::new();
    for counts in found {
        all.add_all(*counts);
    }
    all
}

/// The letters of all user IDs, counted by these workers.
fn count_letters_by<R: Threads + Sync, G: Gate + Sync>(
    workers: &Workers<'_, R, G>,
    alloc: Global,
    state: &LentState<'_>,
    rows: &Rows,
) -> Result<LetterCounts, Mem>
    ensures { IfOk result (λ counts. counts ≡ counts_of (all_letters state.now rows.now)) }
{
    let ids = state.table().ids()?;
    let size = piece_size(ids.len(), workers.count);
    let found = count_pieces(workers, alloc, state, rows, &ids, size)?;
    Ok(count_of_pieces(&found))
}

/// The same line as `tally` makes, the letters counted by these workers.
pub fn tally_by<R: Threads + Sync, G: Gate + Sync>(
    workers: &Workers<'_, R, G>,
    alloc: Global,
    state: &LentState<'_>,
    rows: &Rows,
) -> Result<Vec<u8>, Mem>
    ensures { IfOk result (λ text. text.items ≡ tally_line state.now rows.now) }
{
    let counts = count_letters_by(workers, alloc, state, rows)?;
    counts_line(alloc, rows, &counts)
}
