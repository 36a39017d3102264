//! The index by issuers, made by several threads.

ghost use Rattle.std.specs.Prelude.{◌≡◌, ◌==◌, ◌&&◌, ◌||◌, ℕ, All, IfOk, IsOk, OnOk, length};
ghost use Rattle.std.specs.FinMap as finmap;
ghost use Rattle.std.specs.List.{list_any};
ghost use Rattle.wot_index.specs.Indexed.{has, has_pair};
ghost use Rattle.wot_table.specs.declared.heading.Heading.TheVariants.{Issuer};
ghost use Rattle.wot_table.specs.Headings.{AgreesWith, is_under};
ghost use Rattle.wot_table.specs.FoundPairs.{ArePairsOf, IsFoundByPiece, has_found};
ghost use Rattle.wot_workers.specs.Pieces.{IsPieceSize};

use crate::heading::Heading;
use crate::table::Table;
use std::alloc::{AllocError, Global};
use std::thread::{Threads, map_chunks};
use wot_index::Index;
use wot_types::{KeyId, Mem};
use wot_workers::{Gate, Workers, piece_size};

/// Adds the pairs under which a key stands.
fn push_pairs_of_id(table: &Table, id: KeyId, to: &mut Vec<(u64, KeyId)>) -> Result<(), Mem>
    ensures { OnOk result ((n k : ℕ) → has_pair n k to.new.items ≡ (has_pair n k to.old.items || ((k == id) && is_under Issuer n (finmap.get table.now id)))) }
{
    match table.held(id) {
        Some(held) => held.push_pairs(Heading::Issuer, id, to),
        None => Ok(()),
    }
}

/// The pairs under which some keys stand, in rising order.
fn pairs_of_piece(table: &Table, ids: &[KeyId]) -> Result<Vec<(u64, KeyId)>, Mem>
    ensures { IfOk result (λ pairs. ArePairsOf table.now ids.now pairs.items) }
{
    let mut pairs = Vec::new(table.alloc());
    for id in ids {
        push_pairs_of_id(table, *id, &mut pairs)?;
    }
    pairs.sort_unstable();
    Ok(pairs)
}

/// What the workers find, piece by piece. They call no gate.
fn pairs_by_piece<R: Threads + Sync, G: Gate + Sync>(
    workers: &Workers<'_, R, G>,
    table: &Table,
    ids: &[KeyId],
    size: usize,
) -> Result<Vec<Result<Vec<(u64, KeyId)>, Mem>>, AllocError>
    requires size { IsPieceSize workers.now.count (length ids.now) size }
    ensures { IfOk result (λ found. IsFoundByPiece table.now size ids.now found.items) }
{
    map_chunks(
        workers.rt,
        table.alloc(),
        ids,
        size,
        &|_start: usize, piece: &[KeyId]| -> Result<Vec<(u64, KeyId)>, Mem>
            ensures { IfOk result (λ pairs. ArePairsOf table.entry.now piece.entry.now pairs.items) }
        { pairs_of_piece(table, piece) },
    )
}

/// The pairs of all pieces, with no room to spare. Each piece is in order, so that to sort them is to merge them.
fn merged(
    alloc: Global,
    pieces: Vec<Result<Vec<(u64, KeyId)>, Mem>>,
) -> Result<Vec<(u64, KeyId)>, Mem>
    ensures whole { IfOk result (λ _. All IsOk pieces.items) }
    ensures exact { IfOk result (λ pairs. (n k : ℕ) → has_pair n k pairs.items ≡ list_any (has_found n k) pieces.items) }
{
    let mut pairs = Vec::new(alloc);
    for piece in pieces {
        pairs.append(&mut piece?)?;
    }
    pairs.shrink_to_fit();
    pairs.sort()?;
    Ok(pairs)
}

/// The pairs under which the keys stand, found by these workers.
fn pairs_by<R: Threads + Sync, G: Gate + Sync>(
    workers: &Workers<'_, R, G>,
    table: &Table,
) -> Result<Vec<(u64, KeyId)>, Mem>
    ensures { IfOk result (λ pairs. AgreesWith (λ n k. has_pair n k pairs.items) Issuer table.now) }
{
    let ids = table.ids()?;
    let size = piece_size(ids.len(), workers.count);
    merged(table.alloc(), pairs_by_piece(workers, table, &ids, size)?)
}

/// The index by issuers of all keys, made by these workers. They call no gate.
pub fn issuers_by<R: Threads + Sync, G: Gate + Sync>(
    workers: &Workers<'_, R, G>,
    table: &Table,
) -> Result<Index, Mem>
    ensures { IfOk result (λ index. AgreesWith (has index) Issuer table.now) }
{
    Index::of(table.alloc(), pairs_by(workers, table)?)
}
